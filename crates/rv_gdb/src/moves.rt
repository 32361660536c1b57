//! Moves of the board, and their stops.
ghost use Rattle.std.specs.Prelude.{◌≡◌, ◌-◌, ◌++◌, IfOk, MatchOption, OnOk, false, if◌then◌else◌, is_some};
ghost use Rattle.rv_monitor.specs.Stops.{steps_between};
ghost use Rattle.rv_recording.specs.Until.{HasRun};
ghost use Rattle.rv_moves.specs.declared.forward.Aim.TheVariants.{Outside};
ghost use Rattle.rv_lab.specs.Commands.{stepped};
ghost use Rattle.rv_gdb.specs.Moves.{EndSays, Lands, Notes, after_part, back_reason, begin_reason, calls_of, ends_of, goes_on, is_at_break, is_lost, landed, last_stop_of, lost_by, met_before, met_next, met_reason, ran_back, run_reason, signal_of, state_packet, step_reason, stop_packets, taken, watch_reason, went_back, with_aim, with_session};
ghost use Rattle.rv_gdb.specs.Serves.{StepSays};
ghost use Rattle.rv_gdb.specs.Target.{with_console, with_recording};
ghost use Rattle.rv_replies.specs.declared.stops.Reason.TheVariants.{Plain};

use crate::target::{NO_HANDLER, Target};
use rv_base::NoMemory;
use rv_board::BootedBoard;
use rv_hart::Outcome;
use rv_moves::{Aim, Back, Watch, run, run_back, run_to_stop};
use rv_packets::append_packet;
use rv_recording::End;
use rv_replies::{Reason, append_state};

/// The signals of gdb: SIGINT, SIGILL, SIGTRAP, SIGBUS, SIGSEGV and SIGSYS.
const INTERRUPTED: u8 = 2;

const ILLEGAL: u8 = 4;

pub(crate) const TRAPPED: u8 = 5;

const MISALIGNED: u8 = 10;

const REFUSED: u8 = 11;

const CALLED: u8 = 12;

/// Returns the signal of a trap by its cause.
fn signal_of(cause: u32) -> u8
    ensures { result ≡ signal_of cause }
{
    match cause {
        0 | 4 | 6 => MISALIGNED,
        1 | 5 | 7 => REFUSED,
        2 => ILLEGAL,
        8 | 11 => CALLED,
        _ => TRAPPED,
    }
}

/// Returns why a move ends at a watch.
fn watch_reason(watch: Watch) -> Reason
    ensures { result ≡ watch_reason watch }
{
    match (watch.stores, watch.loads) {
        (true, true) => Reason::Accessed(watch.address),
        (true, false) => Reason::Stored(watch.address),
        (false, _) => Reason::Loaded(watch.address),
    }
}

/// Returns why a run ends that may have come to a watch.
fn met_reason(met: Option<Watch>) -> Reason
    ensures { result ≡ met_reason met }
{
    match met {
        Some(watch) => watch_reason(watch),
        None => Reason::Plain,
    }
}

/// Returns why a run back ends.
fn back_reason(found: Option<Back>) -> Reason
    ensures { result ≡ back_reason found }
{
    match found {
        Some(
            Back {
                watch: Some(watch),
                ..
            },
        ) => watch_reason(watch),
        Some(Back { watch: None, .. }) => Reason::Breakpoint,
        None => Reason::Begin,
    }
}

/// Returns whether a board stands where a trap without a handler leads.
fn is_lost(board: &BootedBoard) -> bool
    ensures { result ≡ is_lost board.now }
{
    board.halted().is_none() && board.pc() == NO_HANDLER
}

impl Target {
    /// Appends the stop of the board by a signal, or its end.
    pub(crate) fn append_state(
        &self,
        signal: u8,
        reason: Reason,
        out: &mut Vec<u8>,
    ) -> Result<(), NoMemory>
        ensures { OnOk result (out.new.items ≡ out.old.items ++ state_packet signal reason self.now) }
    {
        let mut contents = Vec::new(self.alloc);
        append_state(&mut contents, self.board(), signal, reason)?;
        append_packet(self.alloc, &contents, out)
    }

    /// Appends what the console got, and the stop of the board by a signal or its end.
    fn append_halt(&mut self, signal: u8, reason: Reason, out: &mut Vec<u8>) -> Result<(), NoMemory>
        ensures text { OnOk result (out.new.items ≡ out.old.items ++ stop_packets signal reason self.old) }
        ensures told { OnOk result (self.new ≡ with_console self.old) }
    {
        self.append_console(out)?;
        self.append_state(signal, reason, out)
    }

    /// Appends a packet with why the last trap came.
    #[tactic(auto, using(crate::proofs::Told::noted))]
    fn append_why(&self, out: &mut Vec<u8>) -> Result<(), NoMemory>
        ensures { OnOk result (Notes out.old.items out.new.items) }
    {
        let why = self.explanation()?;
        self.append_note(why.bytes(), out)
    }

    /// Goes back to after the first `steps` steps.
    pub(crate) fn go_back(&mut self, steps: u64) -> Result<(), NoMemory>
        ensures { OnOk result (self.new ≡ went_back self.old steps) }
    {
        self.lab.recording_mut().go_back(steps)?;
        self.told = self.board().console().len();
        Ok(())
    }

    /// Returns the cause of the trap that led the board to where it is, if there was no handler for it.
    #[tactic(auto, unfolding(crate::specs::Moves::trap_cause))]
    fn lost_by(&self) -> Result<Option<u32>, NoMemory>
        ensures { IfOk result (λ cause. cause ≡ lost_by self.now) }
    {
        if !is_lost(self.board()) {
            return Ok(None);
        }
        let steps = self.lab.steps().saturating_sub(1);
        let mut run = self.lab.recording().replay(steps)?;
        match run.take_step()? {
            Some(Outcome::Trapped { cause, .. }) => Ok(Some(cause)),
            _ => Ok(None),
        }
    }

    /// Tells where a move ended. A trap without a handler is told as a signal at the instruction that trapped, to which
    /// the board goes back.
    #[tactic(auto, using(crate::proofs::Told::lost, crate::proofs::Told::stays))]
    fn land(&mut self, reason: Reason, out: &mut Vec<u8>) -> Result<(), NoMemory>
        ensures state { OnOk result (self.new ≡ landed self.old) }
        ensures says { OnOk result (Lands reason self.old out.old.items out.new.items) }
    {
        let Some(cause) = self.lost_by()? else {
            return self.append_halt(TRAPPED, reason, out);
        };
        self.append_console(out)?;
        self.append_why(out)?;
        let before = self.lab.steps().saturating_sub(1);
        self.go_back(before)?;
        self.append_state(signal_of(cause), Reason::Plain, out)
    }

    /// Returns the watch that the next instruction meets.
    pub(crate) fn met_next(&self) -> Option<Watch>
        ensures { result ≡ met_next self.now }
    {
        self.watches.met(self.board())
    }

    /// Returns the watch that the last step met.
    #[tactic(auto, using(rv_moves::proofs::Stops::unmet))]
    fn met_before(&self) -> Result<Option<Watch>, NoMemory>
        ensures { IfOk result (λ w. w ≡ met_before self.now) }
    {
        let steps = self.lab.steps();
        if steps == 0 || self.watches.is_empty() {
            return Ok(None);
        }
        let run = self.lab.recording().replay(steps - 1)?;
        Ok(self.watches.met(run.board()))
    }

    /// Returns whether the next instruction is at a breakpoint.
    fn is_at_break(&self) -> bool
        ensures { result ≡ is_at_break self.now }
    {
        let session = self.lab.recording().session();
        session.has_break(self.board().pc())
    }

    /// Returns why a step ends where the board stands.
    fn step_reason(&self) -> Reason
        ensures { result ≡ step_reason self.now }
    {
        if self.is_at_break() {
            Reason::Breakpoint
        } else {
            Reason::Plain
        }
    }

    /// Returns why a run ends where the board stands.
    fn run_reason(&self) -> Reason
        ensures { result ≡ run_reason self.now }
    {
        if self.is_at_break() {
            return Reason::Breakpoint;
        }
        if self.aim.is_reached(self.calls, self.board()) {
            return Reason::Plain;
        }
        met_reason(self.met_next())
    }

    /// Takes a step, and tells where it ends.
    fn take_step(&mut self, out: &mut Vec<u8>) -> Result<(), NoMemory>
        ensures state { OnOk result (self.new ≡ landed (with_recording self.old (stepped self.old.lab.recording))) }
        ensures says { OnOk result (let new = with_recording self.old (stepped self.old.lab.recording) in
            Lands (step_reason new) new out.old.items out.new.items) }
    {
        let _outcome = self.lab.recording_mut().take_step()?;
        let reason = self.step_reason();
        self.land(reason, out)
    }

    /// Takes a step, unless that would meet a watch, and tells where it ends.
    pub(crate) fn step(&mut self, out: &mut Vec<u8>) -> Result<(), NoMemory>
        ensures state { OnOk result (self.new ≡ (if is_some (met_next self.old) then with_console self.old
            else landed (with_recording self.old (stepped self.old.lab.recording)))) }
        ensures says { OnOk result (StepSays self.old out.old.items out.new.items) }
    {
        match self.met_next() {
            Some(watch) => self.append_halt(TRAPPED, watch_reason(watch), out),
            None => self.take_step(out),
        }
    }

    /// Begins a run until the pc leaves some addresses, unless its first step would meet a watch, which is told.
    pub(crate) fn begin_within(
        &mut self,
        from: u32,
        to: u32,
        out: &mut Vec<u8>,
    ) -> Result<(), NoMemory>
        ensures state { OnOk result (self.new ≡ (if is_some (met_next self.old) then with_console self.old
            else with_aim (Outside from to) self.old)) }
        ensures says { OnOk result (MatchOption (met_next self.old) (out.new.items ≡ out.old.items)
            (λ w. out.new.items ≡ out.old.items ++ stop_packets 5 (watch_reason w) self.old)) }
    {
        match self.met_next() {
            Some(watch) => self.append_halt(TRAPPED, watch_reason(watch), out),
            None => {
                self.begin(Aim::Outside(from, to));
                Ok(())
            }
        }
    }

    /// Begins a run.
    pub(crate) fn begin(&mut self, aim: Aim)
        ensures { self.new ≡ with_aim aim self.old }
    {
        self.aim = aim;
        self.calls = 0;
    }

    /// Returns why a step back ends that is taken.
    fn begin_reason(&self) -> Reason
        ensures { result ≡ begin_reason self.now }
    {
        if self.lab.steps() == 0 {
            Reason::Begin
        } else {
            Reason::Plain
        }
    }

    /// Takes a step back, unless the last step met a watch, and tells where it ends.
    pub(crate) fn step_back(&mut self, out: &mut Vec<u8>) -> Result<(), NoMemory>
        ensures state { OnOk result (self.new ≡ (if is_some (met_before self.old) then self.old
            else went_back self.old (taken self.old - 1))) }
        ensures says { OnOk result (MatchOption (met_before self.old)
            (out.new.items ≡ out.old.items ++ state_packet 5 (begin_reason self.old) self.new)
            (λ w. out.new.items ≡ out.old.items ++ state_packet 5 (watch_reason w) self.old)) }
    {
        if let Some(watch) = self.met_before()? {
            return self.append_state(TRAPPED, watch_reason(watch), out);
        }
        let reason = self.begin_reason();
        let steps = self.lab.steps();
        self.go_back(steps.saturating_sub(1))?;
        self.append_state(TRAPPED, reason, out)
    }

    /// Takes steps of a run, at most `most`, and returns why they ended.
    ///
    /// # Errors
    ///
    /// `NoMemory` if memory runs out at a step. The steps before it are taken.
    pub fn take_part(&mut self, most: u64) -> Result<End, NoMemory>
        ensures run { IfOk result (HasRun (ends_of self.old) most
            self.old.lab.recording.session self.new.lab.recording.session) }
        ensures calls { OnOk result (self.new.calls ≡ calls_of self.old
            (steps_between self.old.lab.recording.session.timed self.new.lab.recording.session.timed)) }
        ensures others { self.new
            ≡ record (with_session self.old self.new.lab.recording.session) { calls = self.new.calls } }
    {
        let recording = self.lab.recording_mut();
        match self.aim {
            Aim::Stop => run_to_stop(recording, &self.watches, most),
            Aim::Outside(_, _) => run(recording, &self.watches, &self.aim, &mut self.calls, most),
        }
    }

    /// Tells where a part of a run ended, by why it did, and returns whether the run goes on.
    ///
    /// # Errors
    ///
    /// `NoMemory` if memory runs out.
    pub fn end_part(&mut self, end: End, out: &mut Vec<u8>) -> Result<bool, NoMemory>
        ensures state { OnOk result (self.new ≡ after_part end self.old) }
        ensures says { OnOk result (EndSays end self.old out.old.items out.new.items) }
        ensures more { IfOk result (λ more. more ≡ goes_on end) }
    {
        match end {
            End::Limit => {
                self.append_console(out)?;
                Ok(true)
            }
            End::Stuck => self.end_run(Reason::End, out),
            End::Breakpoint | End::Halted | End::Reached => {
                let reason = self.run_reason();
                self.end_run(reason, out)
            }
        }
    }

    /// Tells where a run ended.
    fn end_run(&mut self, reason: Reason, out: &mut Vec<u8>) -> Result<bool, NoMemory>
        ensures state { OnOk result (self.new ≡ landed self.old) }
        ensures says { OnOk result (Lands reason self.old out.old.items out.new.items) }
        ensures more { IfOk result (λ more. more ≡ false) }
    {
        self.land(reason, out)?;
        Ok(false)
    }

    /// Tells that a run was interrupted.
    pub(crate) fn interrupt(&mut self, out: &mut Vec<u8>) -> Result<(), NoMemory>
        ensures state { OnOk result (self.new ≡ with_console self.old) }
        ensures says { OnOk result (out.new.items ≡ out.old.items ++ stop_packets 2 Plain self.old) }
    {
        self.append_halt(INTERRUPTED, Reason::Plain, out)
    }

    /// Goes back to the last stop before the present step, or to the first one, and tells where that is.
    pub(crate) fn run_back(&mut self, out: &mut Vec<u8>) -> Result<(), NoMemory>
        ensures state { OnOk result (self.new ≡ ran_back self.old) }
        ensures says { OnOk result (out.new.items
            ≡ out.old.items ++ state_packet 5 (back_reason (last_stop_of self.old)) self.new) }
    {
        let found = run_back(self.lab.recording_mut(), &self.watches)?;
        self.told = self.board().console().len();
        self.append_state(TRAPPED, back_reason(found), out)
    }
}
