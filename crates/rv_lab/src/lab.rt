//! The lab: what a caller may ask of it.
ghost use Rattle.std.specs.Prelude.{◌≡◌, [], max, Err, IfErr, IfOk, None, Ok, OnErr, OnOk};
ghost use Rattle.rv_asm.specs.Lines.{listed};
ghost use Rattle.rv_asm.specs.Seen.{seen};
ghost use Rattle.rv_monitor.specs.Laws.{IsReached};
ghost use Rattle.rv_recording.specs.Recording.{first_board};
ghost use Rattle.rv_lab.specs.State.{listing, registers_of, setup};
ghost use Rattle.rv_answers.specs.declared.command.Command.TheVariants.{StepOnce};
ghost use Rattle.rv_runs.specs.declared.goal.Goal.TheVariants as goal;
ghost use Rattle.rv_lab.specs.Commands.{IsWithin, ready};
ghost use Rattle.rv_lab.specs.Refusals.{RunsOut};
ghost use Rattle.rv_lab.specs.Support.Short.{Executes};
ghost use Rattle.rv_lab.specs.Marks.{marks_in};
ghost use Rattle.rv_lab.specs.Opening.{OpensLab};
ghost use Rattle.rv_lab.specs.Words.{line_command};
ghost use Rattle.rv_lab.specs.Orders.{order_of, ordered};
ghost use Rattle.rv_lab.specs.Runs.{Leaves, Obeys, line_does, look_by, reply_to};

use crate::command::{read_command, repeated, trail_before};
use crate::fault::LabFault;
use crate::marks::marks_in;
use crate::order::Order;
use crate::trail::Trail;
use rv_answers::{Answer, Command, Count, Printer, Registers};
use rv_asm::{Listing, Places, Program, list};
use rv_base::NoMemory;
use rv_board::BootedBoard;
use rv_convention::registers_of;
use rv_frames::{FrameRow, frame_rows};
use rv_recording::{Recording, Watched};
use rv_runs::{Goal, Guard, Plan};
use std::alloc::Global;
use std::marker::Model;

/// The sizes of a board.
#[derive(Clone, Copy)]
pub struct Sizes {
    /// The pages of memory, of 4096 bytes each: 1 to 4096.
    pub pages: u16,
    /// The slots of the cache of decoded instructions: a power of two from 64 to 4096.
    pub slots: u16,
}

/// What follows a command.
#[derive(Clone, Copy)]
pub enum Next {
    /// The next command follows.
    More,
    /// The run isn't over: `go_on` goes on with it. Another command ends it.
    Running,
    /// What was done is to be saved under the name that the answer has.
    Save,
    /// No command follows.
    Quit,
}

/// What a command answers, what follows it, and which bytes the console got meanwhile: those of the board's console
/// from `from` on, up to `to`.
#[derive(Drop)]
pub struct Reply {
    /// What follows it.
    pub next: Next,
    /// What it answers.
    pub answer: Answer,
    /// The number of the first of these bytes, from 0.
    pub from: usize,
    /// The number of the one after them.
    pub to: usize,
}

/// What a command answers, and what follows it.
#[derive(Drop)]
pub(crate) struct Done {
    pub(crate) next: Next,
    pub(crate) answer: Answer,
}

/// What the last command left.
#[derive(Clone, Copy)]
pub(crate) struct Last {
    /// The registers before the last command that moved the board.
    pub(crate) registers: Registers,
    /// The number of steps that the board had taken before it.
    pub(crate) steps: u64,
    /// How many bytes of the console were told.
    pub(crate) told: usize,
    /// What an empty line repeats.
    pub(crate) command: Command,
    /// The number of steps of the last `s`.
    pub(crate) count: u64,
    /// The last line of the last `l`.
    pub(crate) listed: usize,
    /// The run that isn't over, if there is one.
    pub(crate) plan: Option<Plan>,
    /// What `c` goes on for.
    pub(crate) resumes: Goal,
    /// What `why` alone goes on with, if it does.
    pub(crate) trail: Option<Trail>,
}

/// A board with its source, whose state is asked for and moved by command lines.
pub struct Lab {
    pub(crate) alloc: Global,
    pub(crate) source: Vec<u8>,
    pub(crate) places: Places,
    pub(crate) frames: Vec<FrameRow>,
    /// The addresses of the places of the C source.
    pub(crate) marks: Vec<u32>,
    pub(crate) recording: Recording,
    /// The conditions of breakpoints.
    pub(crate) guards: Vec<Guard>,
    /// What is watched.
    pub(crate) watches: Vec<Watched>,
    pub(crate) last: Last,
    /// The most steps of one call: a longer run goes on by `go_on`.
    pub(crate) piece: u64,
}

/// The steps of a piece where none other is asked for.
const PIECE: u64 = 1_000_000;

// Hand-written: a derived `Drop` would be proved anew at each exit (docs/PROVING.md).
impl Drop for Lab {
    fn drop(self) {
        let Lab {
            alloc: _,
            source: _,
            places: _,
            frames: _,
            marks: _,
            recording: _,
            guards: _,
            watches: _,
            last: _,
            piece: _,
        } = self;
    }
}

impl Model for Lab {
    ghost use Rattle.std.specs.Coded.{codes, coded_ℕ};
    ghost use Rattle.std.specs.FinSet as set;
    ghost use Rattle.std.specs.Ordering.{nat_cmp};
    ghost use Rattle.rv_plic.specs.Support.Codes.{plic_code};
    ghost use Rattle.rv_lab.specs.State.{LabState};

    ghost Value = { LabState };

    ghost coded = { Prim.hlevel (codes, plic_code, set.code {R = nat_cmp} coded_ℕ) };

    ghost view = { λ l. record { source = l.source.items; places = l.places; frames = l.frames.items; marks = l.marks.items; recording = l.recording; guards = l.guards.items; watches = l.watches.items; registers = l.last.registers; before = l.last.steps; told = l.last.told; again = l.last.command; count = l.last.count; listed = l.last.listed; plan = l.last.plan; resumes = l.last.resumes; trail = l.last.trail; piece = l.piece } };
}

impl Lab {
    /// Assembles a source, and boots its image on a board that gets the inputs of a timed list.
    ///
    /// # Errors
    ///
    /// The first fault of the source, the timed list and the board, in this order; `OutOfMemory` may come in
    /// place of any result.
    pub fn open(alloc: Global, source: &[u8], inputs: &[u8], sizes: Sizes) -> Result<Lab, LabFault>
        ensures opens { IfOk result (λ l.
            OpensLab source.now inputs.now sizes.pages sizes.slots (Ok l.recording.session)) }
        ensures err { IfErr result (λ e. OpensLab source.now inputs.now sizes.pages sizes.slots (Err e)) }
        ensures sizes { IfOk result (λ l.
            (l.recording.pages ≡ sizes.pages) × (l.recording.slots ≡ sizes.slots)) }
        ensures listing { IfOk result (λ l. listed source.now ≡ Ok (listing l)) }
        ensures marks { IfOk result (λ l. l.marks ≡ marks_in (listing l).labels) }
        ensures begins { IfOk result (λ l. (l.source ≡ source.now) × (l.guards ≡ []) × (l.watches ≡ []) × (l.before ≡ 0) × (l.told ≡ 0)
            × (l.registers ≡ registers_of l.recording.session.timed.board) × (l.again ≡ StepOnce) × (l.count ≡ 1)
            × (l.listed ≡ 0) × (l.plan ≡ None) × (l.resumes ≡ goal.Break) × (l.trail ≡ None) × (l.piece ≡ 1000000)) }
    {
        let (program, places) = list(alloc, source)?;
        let (pages, slots) = (u32::from(sizes.pages), u32::from(sizes.slots));
        let recording = Recording::open(alloc, program, inputs, pages, slots)?;
        let listing = Listing {
            program: recording.session().program(),
            places: &places,
        };
        let Ok(frames) = frame_rows(alloc, listing) else {
            return Err(LabFault::OutOfMemory);
        };
        let Ok(marks) = marks_in(alloc, listing.labels()) else {
            return Err(LabFault::OutOfMemory);
        };
        let Ok(source) = Vec::from_slice(alloc, source) else {
            return Err(LabFault::OutOfMemory);
        };
        let last = Last {
            registers: registers_of(recording.session().board()),
            steps: 0,
            told: 0,
            command: Command::StepOnce,
            count: 1,
            listed: 0,
            plan: None,
            resumes: Goal::Break,
            trail: None,
        };
        Ok(Lab {
            alloc,
            source,
            places,
            frames,
            marks,
            recording,
            guards: Vec::new(alloc),
            watches: Vec::new(alloc),
            last,
            piece: PIECE,
        })
    }

    /// Returns the board. Whatever the commands, it is the run of the recorded events from reset on.
    pub fn board(&self) -> &BootedBoard
        ensures value { result.now ≡ self.now.recording.session.timed.board }
        ensures run { IsReached (first_board self.now.recording) self.now.recording.session.timed }
    {
        self.recording.session().board()
    }

    /// Returns the number of steps that the board has taken.
    pub fn steps(&self) -> u64
        ensures { result ≡ self.now.recording.session.timed.taken }
    {
        self.recording.steps()
    }

    /// Makes a call of `command` or `go_on` take at most `steps` steps, or one: a longer run goes on by
    /// `go_on`.
    pub fn set_piece(&mut self, steps: u64)
        ensures { self.new ≡ record self.old { piece = max steps 1 } }
    {
        self.piece = steps.max(1);
    }

    /// Returns the program of the source.
    pub(crate) fn program(&self) -> &Program
        ensures { result.now ≡ self.now.recording.session.program }
    {
        self.recording.session().program()
    }

    /// Returns the lines of the source.
    pub fn listing(&self) -> Listing<'_>
        ensures { seen result ≡ listing self.now }
    {
        Listing {
            program: self.program(),
            places: &self.places,
        }
    }

    /// Appends the source's name and size, and where the board stands.
    pub fn greet(&self, name: &str, answer: &mut Printer) {
        let lines = Count(self.listing().len() as u64, "line");
        let bytes = Count(self.program().bytes().len() as u64, "byte");
        writeln!(
            answer,
            "{name}: {lines}, {bytes} from 80000000; `help` shows the commands"
        );
        self.append_here(answer);
    }

    /// Appends the progress of a long run.
    pub fn append_progress(&self, answer: &mut Printer) {
        writeln!(answer, "running: step {}", self.steps());
    }

    /// Makes the lab ready for a command: ends the run that isn't over and what `why` follows, unless it is `why`, and
    /// keeps what an empty line repeats.
    fn make_ready(&mut self, command: Command)
        ensures { self.new ≡ ready command self.old }
    {
        self.last.plan = None;
        let trail = self.last.trail;
        self.last.trail = trail_before(command, trail);
        let again = self.last.command;
        self.last.command = repeated(command, again);
    }

    /// Returns what a command line answers, if it asks for nothing but an answer. The lab stays as it is.
    ///
    /// # Errors
    ///
    /// `NoMemory` if memory runs out.
    #[tactic(auto, unfolding(crate::specs::Orders::order_of))]
    pub fn look(&self, line: &[u8]) -> Result<Option<Answer>, NoMemory>
        ensures { IfOk result (λ a. a ≡ look_by (order_of line.now self.now) self.now) }
    {
        match self.read_order(read_command(line))? {
            Order::Answered(answer) => Ok(Some(answer)),
            Order::List(excerpt, follows) => Ok(Some(self.rows_answer(excerpt, follows)?)),
            Order::Origin(trail) => Ok(Some(Answer::Origin(self.origin_of(&trail)?))),
            _ => Ok(None),
        }
    }

    /// Obeys a command line.
    #[tactic(auto, using(crate::proofs::Obeyed::unread, crate::proofs::Obeyed::executed_it))]
    fn obey(&mut self, line: &[u8]) -> Result<Done, NoMemory>
        ensures { Executes (ordered line.now self.old) (ready (line_command line.now) self.old) self.new result }
    {
        let said = read_command(line);
        self.make_ready(said.command);
        match self.read_order(said) {
            Ok(order) => self.execute(order),
            Err(NoMemory) => Err(NoMemory),
        }
    }

    /// Executes a command line, and returns its answer. It takes at most a piece of steps: a longer run goes on
    /// by `go_on`.
    ///
    /// # Errors
    ///
    /// `NoMemory` if memory runs out. The lab is as it was then, or as after some of the command's steps.
    #[tactic(auto, using(crate::proofs::Obeyed::replied, crate::proofs::Obeyed::line_setup, crate::proofs::Obeyed::line_within, crate::proofs::Obeyed::line_left, crate::proofs::Obeyed::line_short))]
    pub fn answer(&mut self, line: &[u8]) -> Result<Reply, NoMemory>
        ensures setup { setup self.new ≡ setup self.old }
        ensures obeys { OnOk result (Obeys line.now self.old self.new) }
        ensures replies { IfOk result (λ r. r ≡ reply_to line.now self.old self.new) }
        ensures err { OnErr result (RunsOut (line_does line.now self.old self.new).goal
            (Leaves (ordered line.now self.old)) (ready (line_command line.now) self.old) self.new) }
        ensures bound { IsWithin (max self.old.piece 1) self.old self.new }
    {
        let from = self.board().console().len();
        let Done { next, answer } = self.obey(line)?;
        Ok(self.reply(next, answer, from))
    }

    /// Returns a reply. `from` is the number of bytes of the console that aren't told in it.
    pub(crate) fn reply(&self, next: Next, answer: Answer, from: usize) -> Reply
        ensures { result ≡ record { next = next; answer = answer; from = from; to = max from self.now.told } }
    {
        let to = from.max(self.last.told);
        Reply {
            next,
            answer,
            from,
            to,
        }
    }
}
