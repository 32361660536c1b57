//! Recordings.
ghost use Rattle.std.specs.Prelude.{◌≡◌, ◌≢◌, ◌-◌, ◌++◌, ◌≤◌, true, false, min, Some, Ok, Err, OnOk, OnErr, IfOk, IfErr, vec_capacity, vec_len};
ghost use Rattle.std.specs.FinSet as set;
ghost use Rattle.rv_board.specs.Move.{run};
ghost use Rattle.rv_commands.specs.declared.command.Command.{Command};
ghost use Rattle.rv_timeline.specs.Text.{list_text};
ghost use Rattle.rv_timeline.specs.Timed.{never_falls, IsRead};
ghost use Rattle.rv_monitor.specs.Commands.{Leaves, LeavesRefused, answer, command_in};
ghost use Rattle.rv_monitor.specs.Events.{events_of};
ghost use Rattle.rv_monitor.specs.Laws.{IsReached};
ghost use Rattle.rv_monitor.specs.Room.{LacksRoom, NextWantsRoom};
ghost use Rattle.rv_monitor.specs.State.{begun, given, with_break, without_break};
ghost use Rattle.rv_monitor.specs.Stops.{Took, WasRefused, stop_of, TakesStep};
ghost use Rattle.rv_recording.specs.Recording.{first_board, gone_back, last_step, with_timed};
ghost use Rattle.rv_monitor.specs.Opening.{Opens};

use crate::kept::KeptStates;
use rv_base::NoMemory;
use rv_board::BootedBoard;
use rv_cache::DecodeCache;
use rv_hart::Outcome;
use rv_monitor::{Next, OpenFault, Session, Stop, open_session};
use rv_program::{Names, Program};
use rv_ram::{ByteMemory, PagedRam};
use rv_timeline::{Input, TimedInput, Timeline, list_text};
use std::alloc::Global;
use std::marker::Model;

/// The most steps that a recording takes: the largest step of a timed list.
pub const LAST_STEP: u64 = 9_999_999_999;

/// A session of a booted board, with what is needed to run it again.
#[derive(Drop)]
pub struct Recording {
    alloc: Global,
    session: Session<PagedRam, DecodeCache>,
    pages: u32,
    slots: u32,
    /// States on the way, which going back begins at.
    kept: KeptStates,
}

impl Model for Recording {
    ghost use Rattle.std.specs.Prelude.{◌*◌};
    ghost use Rattle.std.specs.Coded.{codes, coded_ℕ};
    ghost use Rattle.std.specs.FinSet as set;
    ghost use Rattle.std.specs.Ordering.{nat_cmp};
    ghost use Rattle.rv_plic.specs.Support.Codes.{plic_code};
    ghost use Rattle.rv_board.specs.Boot.{board_at_reset};
    ghost use Rattle.rv_recording.specs.Support.Kept.{AreKept};
    ghost use Rattle.rv_recording.specs.Recording.{RecordingState};
    ghost use Rattle.rv_recording.specs.Support.Recorded.{IsRecorded};

    ghost Value = { RecordingState };

    ghost coded = { Prim.hlevel (codes, plic_code, set.code {R = nat_cmp} coded_ℕ) };

    ghost view = { λ r. record { session = r.session; pages = r.pages; slots = r.slots } };

    ghost invariant = { λ r. IsRecorded (record { session = r.session; pages = r.pages; slots = r.slots })
        × AreKept (board_at_reset r.session.program.bytes (4096 * r.pages)) r.session.timed.inputs r.kept };
}

impl Recording {
    /// Opens a session of a program and a timed list on a board of these sizes, and returns it as a recording
    /// before its first step. It may take [`LAST_STEP`] steps.
    ///
    /// # Errors
    ///
    /// As those of [`open_session`].
    #[tactic(auto, using(crate::proofs::Stands::opened_is, std::proofs::lemmas::Result::err_from_is_err_and))]
    pub fn open(
        alloc: Global,
        program: Program,
        inputs: &[u8],
        pages: u32,
        slots: u32,
    ) -> Result<Recording, OpenFault>
        ensures ok { IfOk result (λ r. Opens program inputs.now pages slots last_step (Ok r.session)) }
        ensures sizes { IfOk result (λ r. (r.pages ≡ pages) × (r.slots ≡ slots)) }
        ensures err { IfErr result (λ e. Opens program inputs.now pages slots last_step (Err e)) }
    {
        let session = open_session(alloc, program, inputs, pages, slots, LAST_STEP)?;
        Ok(Recording {
            alloc,
            session,
            pages,
            slots,
            kept: KeptStates::new(alloc),
        })
    }

    /// Returns the session. Whatever was done, its board is the run of the recorded events from reset on.
    pub fn session(&self) -> &Session<PagedRam, DecodeCache>
        ensures value { result.now ≡ self.now.session }
        ensures reached { IsReached (first_board self.now) self.now.session.timed }
    {
        &self.session
    }

    /// Returns the number of pages of memory.
    pub fn pages(&self) -> u32
        ensures { result ≡ self.now.pages }
    {
        self.pages
    }

    /// Returns the number of slots of the decoded cache.
    pub fn slots(&self) -> u32
        ensures { result ≡ self.now.slots }
    {
        self.slots
    }

    /// Returns how many steps were taken.
    pub fn steps(&self) -> u64
        ensures { result ≡ self.now.session.timed.taken }
    {
        self.session.taken()
    }

    /// Returns the recorded inputs in their order: those of the timed list, and those that were given by
    /// hand.
    pub fn inputs(&self) -> &[TimedInput]
        ensures value { result.now ≡ self.now.session.timed.inputs }
        ensures rising { never_falls result.now ≡ true }
    {
        self.session.inputs()
    }

    /// Returns the recorded inputs as a text that is read as a timed list of exactly these inputs.
    ///
    /// # Errors
    ///
    /// `NoMemory` if memory runs out.
    pub fn inputs_text(&self, alloc: Global) -> Result<Vec<u8>, NoMemory>
        ensures text { IfOk result (λ text. text.items ≡ list_text self.now.session.timed.inputs) }
        ensures read { IfOk result (λ text. IsRead text.items (Ok self.now.session.timed.inputs)) }
    {
        let inputs = self.session.inputs();
        list_text(alloc, inputs)
    }

    /// Keeps the state of the session, if one is due.
    #[inline(always)]
    fn keep(&mut self)
        ensures { self.new ≡ self.old }
    {
        self.kept.keep(self.alloc, &self.session);
    }

    /// Takes `n` steps, as [`Session::step`] does.
    ///
    /// # Errors
    ///
    /// As those of [`Session::step`].
    pub(crate) fn step(&mut self, n: u64) -> Result<Stop, NoMemory>
        ensures took { OnOk result (Took set.empty n self.old.session self.new.session) }
        ensures stop { IfOk result (λ stop. stop ≡ stop_of set.empty self.old.session self.new.session) }
        ensures err { OnErr result (WasRefused set.empty n self.old.session self.new.session) }
        ensures room { OnErr result (NextWantsRoom ⟦<PagedRam as ByteMemory>⟧.wants_room self.new.session) }
        ensures others { self.new ≡ record self.old { session = self.new.session } }
    {
        self.keep();
        self.session.step(n)
    }

    /// Takes up to `n` steps, up to a breakpoint, as [`Session::go`] does.
    ///
    /// # Errors
    ///
    /// As those of [`Session::step`].
    pub(crate) fn go(&mut self, n: u64) -> Result<Stop, NoMemory>
        ensures took { OnOk result
            (Took self.old.session.breakpoints.addresses n self.old.session self.new.session) }
        ensures stop { IfOk result
            (λ stop. stop ≡ stop_of self.old.session.breakpoints.addresses self.old.session self.new.session) }
        ensures err { OnErr result
            (WasRefused self.old.session.breakpoints.addresses n self.old.session self.new.session) }
        ensures room { OnErr result (NextWantsRoom ⟦<PagedRam as ByteMemory>⟧.wants_room self.new.session) }
        ensures others { self.new ≡ record self.old { session = self.new.session } }
    {
        self.keep();
        self.session.go(n)
    }

    /// Takes one step, and returns what it did, or None if the board has halted or the last step is taken.
    ///
    /// # Errors
    ///
    /// As those of [`Session::step`].
    pub fn take_step(&mut self) -> Result<Option<Outcome>, NoMemory>
        ensures step { TakesStep self.old.session self.new.session result }
        ensures room { OnErr result (NextWantsRoom ⟦<PagedRam as ByteMemory>⟧.wants_room self.new.session) }
        ensures others { self.new ≡ record self.old { session = self.new.session } }
    {
        self.keep();
        self.session.take_step()
    }

    /// Gives the board an input at once, and records it: it comes before the next step, after all other
    /// inputs of that step. A board that has halted takes none.
    ///
    /// # Errors
    ///
    /// `NoMemory` if memory runs out. Nothing changes then.
    pub fn give(&mut self, input: Input) -> Result<(), NoMemory>
        ensures ok { OnOk result (self.new ≡ with_timed self.old (given self.old.session.timed input)) }
        ensures err { OnErr result (self.new ≡ self.old) }
    {
        // It tells that no step has more than ten digits.
        let steps = self.session.taken();
        // The events of the states after the present step will be others.
        self.kept.forget_after(steps);
        self.session.give(input)
    }

    /// Goes back to after the first `steps` steps, if more were taken: by taking them again, from a state on
    /// that was kept on the way, or else from reset. All inputs and breakpoints stay; the inputs of the next
    /// step are to be given.
    ///
    /// # Errors
    ///
    /// `NoMemory` if memory runs out. Nothing changes then.
    pub fn go_back(&mut self, steps: u64) -> Result<(), NoMemory>
        ensures ok { OnOk result (self.new ≡ gone_back self.old (min steps self.old.session.timed.taken)) }
        ensures err { OnErr result (self.new ≡ self.old) }
    {
        let count = steps.min(self.session.taken());
        let (board, taken) = match self.board_before(count) {
            Ok(start) => start,
            Err(NoMemory) => return Err(NoMemory),
        };
        match self.session.resume(board, taken, count - taken) {
            Ok(_) => Ok(()),
            Err(NoMemory) => Err(NoMemory),
        }
    }

    /// Returns a board that has taken some of the first `count` steps, and their number: a copy of the newest
    /// state that is kept of them, or the board at reset.
    #[tactic(auto, using(crate::proofs::Keeping::none_taken, crate::proofs::Keeping::has_slots))]
    pub(crate) fn board_before(&self, count: u64) -> Result<(BootedBoard, u64), NoMemory>
        ensures within { IfOk result (λ start. start.1 ≤ count) }
        ensures run { IfOk result (λ start. start.0
            ≡ run (first_board self.now) (events_of self.now.session.timed.inputs 0 start.1)) }
    {
        let Some(kept) = self.kept.latest(count) else {
            let program = self.session.program();
            return match BootedBoard::boot(self.alloc, program, self.pages, self.slots) {
                Ok(board) => Ok((board, 0)),
                Err(_) => Err(NoMemory),
            };
        };
        let cache = DecodeCache::new(self.alloc, self.slots)?;
        let board = kept.board().try_clone(self.alloc, cache)?;
        Ok((board, kept.steps()))
    }

    /// Returns a session that takes the recorded steps again, and no more: it stands after the first `steps` of
    /// them, or after all if there are fewer. The recording stays as it is.
    ///
    /// # Errors
    ///
    /// `NoMemory` if memory runs out.
    #[tactic(auto, using(crate::proofs::Stands::replayed))]
    pub fn replay(&self, steps: u64) -> Result<Session<PagedRam, DecodeCache>, NoMemory>
        ensures timed { IfOk result (λ s. s.timed
            ≡ (gone_back self.now (min steps self.now.session.timed.taken)).session.timed) }
        ensures limit { IfOk result (λ s. s.limit ≡ self.now.session.timed.taken) }
    {
        let taken = self.session().taken();
        let count = steps.min(taken);
        let mut run = self.begun_again(taken)?;
        let (board, before) = self.board_before(count)?;
        run.resume(board, before, count - before)?;
        Ok(run)
    }

    /// Returns a session with the recorded inputs before its first step, which may take `limit` steps: those that were
    /// recorded, and more. No name of the program is known to it. The recording stays as it is.
    ///
    /// # Errors
    ///
    /// `NoMemory` if memory runs out.
    pub fn begun_again(&self, limit: u64) -> Result<Session<PagedRam, DecodeCache>, NoMemory>
        ensures timed { IfOk result (λ s. s.timed ≡ begun (first_board self.now) self.now.session.timed.inputs) }
        ensures inputs { IfOk result (λ s. s.timed.inputs ≡ self.now.session.timed.inputs) }
        ensures reached { IfOk result (λ _. IsReached (first_board self.now) self.now.session.timed) }
        ensures limit { IfOk result (λ s. s.limit ≡ limit) }
    {
        let text = self.inputs_text(self.alloc)?;
        let Ok(timeline) = Timeline::read(self.alloc, text.as_slice()) else {
            return Err(NoMemory);
        };
        let program = self.session.program();
        let Ok(board) = BootedBoard::boot(self.alloc, program, self.pages, self.slots) else {
            return Err(NoMemory);
        };
        let nameless = Program::new(Vec::new(self.alloc), Names::new(self.alloc));
        Ok(Session::new(self.alloc, board, timeline, nameless, limit))
    }

    /// Makes an address a breakpoint.
    ///
    /// # Errors
    ///
    /// As those of [`Session::set_break`].
    #[tactic(auto, using(crate::proofs::Stands::broken))]
    pub fn set_break(&mut self, address: u32) -> Result<(), NoMemory>
        ensures ok { OnOk result
            (self.new ≡ record self.old { session = with_break self.old.session address }) }
        ensures err { OnErr result (self.new ≡ self.old) }
        ensures absent { OnErr result (set.contains self.old.session.breakpoints.addresses address ≡ false) }
        ensures room { OnErr result (self.old.session.breakpoints.room ≡ 0) }
    {
        self.session.set_break(address)
    }

    /// Removes a breakpoint, and returns whether it was there.
    #[tactic(auto, using(crate::proofs::Stands::cleared))]
    pub fn clear_break(&mut self, address: u32) -> bool
        ensures was { result ≡ set.contains self.old.session.breakpoints.addresses address }
        ensures gone { self.new ≡ record self.old { session = without_break self.old.session address } }
    {
        self.session.clear_break(address)
    }

    /// Executes a command line of the monitor, and appends its answer to `text`, as [`Session::command`]
    /// does.
    ///
    /// # Errors
    ///
    /// As those of [`Session::command`].
    pub fn command(&mut self, line: &[u8], text: &mut Vec<u8>) -> Result<Next, NoMemory>
        ensures quits { command_in line.now self.old.session ≡ Some Command.Quit
            → IfOk result (λ next. next ≡ Next.Quit) }
        ensures more { command_in line.now self.old.session ≢ Some Command.Quit
            → IfOk result (λ next. next ≡ Next.More) }
        ensures ok { OnOk result
            (Leaves (command_in line.now self.old.session) self.old.session self.new.session) }
        ensures text { OnOk result (text.new.items ≡ text.old.items
            ++ answer (command_in line.now self.old.session) self.old.session self.new.session) }
        ensures err { OnErr result
            (LeavesRefused (command_in line.now self.old.session) self.old.session self.new.session) }
        ensures silent { OnErr result ((command_in line.now self.old.session ≢ Some Command.Quit)
            × (command_in line.now self.old.session ≢ Some Command.Nothing)) }
        ensures room { OnErr result
            (LacksRoom ⟦<PagedRam as ByteMemory>⟧.wants_room (command_in line.now self.old.session)
            (vec_capacity text.old - vec_len text.old) self.old.session self.new.session) }
        ensures unwritten { OnErr result (text.new.items ≡ text.old.items) }
        ensures others { self.new ≡ record self.old { session = self.new.session } }
    {
        self.session.command(line, text)
    }
}
