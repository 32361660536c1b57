//! Runs until a condition holds.
ghost use Rattle.std.specs.Prelude.{◌≡◌, IfOk, OnErr, if◌then◌else◌, nat_lt};
ghost use Rattle.rv_isa.specs.Alu.{is_taken};
ghost use Rattle.rv_recording.specs.Until.{HasRun, break_ends, holds, step_ends, until_ends, watched_value};
ghost use Rattle.rv_recording.specs.Refused.{IsRefusedIn};
ghost use Rattle.rv_recording.specs.Support.Steps.{TakesOne, end_after, end_before, end_by, end_of_step};

use crate::Recording;
use rv_base::NoMemory;
use rv_board::BootedBoard;
use rv_cache::DecodeCache;
use rv_hart::Outcome;
use rv_isa::{Cond, Reg, branch_taken};
use rv_monitor::{Session, Stop, word_at};
use rv_ram::PagedRam;

/// What is watched.
#[derive(Clone, Copy)]
pub enum Watched {
    /// A register.
    Register(Reg),
    /// The word of memory at an address.
    Word(u32),
}

/// What a run goes on for.
#[derive(Clone, Copy)]
pub enum Condition {
    /// The step trapped.
    Trap,
    /// The console has more bytes than these.
    Console(usize),
    /// The pc is at one of `size` bytes from an address on.
    At {
        /// The address of the first byte.
        address: u32,
        /// The number of bytes.
        size: usize,
    },
    /// What is watched has another value than before.
    Changed {
        /// What is watched.
        watched: Watched,
        /// Its value before, if it had one.
        old: Option<u32>,
    },
    /// What is watched compares with a value.
    Compares {
        /// What is watched.
        watched: Watched,
        /// How a branch compares them.
        cond: Cond,
        /// Whether the value comes first.
        exchanged: bool,
        /// The value.
        value: u32,
    },
}

/// Why a run is over.
#[derive(Clone, Copy)]
pub enum End {
    /// The board halted.
    Halted,
    /// The condition holds.
    Reached,
    /// The next instruction is at a breakpoint.
    Breakpoint,
    /// As many steps were taken as may be.
    Limit,
    /// The recording has taken its last step.
    Stuck,
}

/// Returns whether two words compare as a branch compares them, or as it compares them exchanged.
fn compare(cond: Cond, exchanged: bool, left: u32, right: u32) -> bool
    ensures { result ≡ (if exchanged then is_taken cond right left else is_taken cond left right) }
{
    if exchanged {
        return branch_taken(cond, right, left);
    }
    branch_taken(cond, left, right)
}

impl Watched {
    /// Returns the value on a board: None for a word that isn't in memory.
    pub fn value(self, board: &BootedBoard) -> Option<u32>
        ensures { result ≡ watched_value board.now self }
    {
        match self {
            Watched::Register(register) => Some(board.reg(register)),
            Watched::Word(address) => word_at(board, address),
        }
    }
}

impl Condition {
    /// Returns whether the condition holds after a step that did that, on the board that it left.
    #[tactic(auto, unfolding(crate::specs::Until::holds))]
    pub fn holds(self, outcome: Outcome, board: &BootedBoard) -> bool
        ensures { result ≡ holds self outcome board.now }
    {
        match self {
            Condition::Trap => matches!(outcome, Outcome::Trapped { .. }),
            Condition::Console(sent) => board.console().len() > sent,
            Condition::At { address, size } => {
                let pc = board.pc();
                address <= pc && ((pc - address) as usize) < size
            }
            Condition::Changed { watched, old } => watched.value(board) != old,
            Condition::Compares {
                watched,
                cond,
                exchanged,
                value,
            } => match watched.value(board) {
                Some(word) => compare(cond, exchanged, word, value),
                None => false,
            },
        }
    }
}

/// Returns why a run is over before its first step, if it is.
pub(crate) fn end_before(session: &Session<PagedRam, DecodeCache>) -> Option<End>
    ensures { result ≡ end_before session.now }
{
    if session.board().halted().is_some() {
        return Some(End::Halted);
    }
    if session.taken() < session.limit() {
        return None;
    }
    Some(End::Stuck)
}

/// Returns why a run is over after a step, if it is, by whether it has come to what it goes on for.
pub(crate) fn end_after(reached: bool, session: &Session<PagedRam, DecodeCache>) -> Option<End>
    ensures { result ≡ end_after reached session.now }
{
    let board = session.board();
    if board.halted().is_some() {
        return Some(End::Halted);
    }
    if reached {
        return Some(End::Reached);
    }
    if session.has_break(board.pc()) {
        return Some(End::Breakpoint);
    }
    if session.taken() < session.limit() {
        return None;
    }
    Some(End::Stuck)
}

impl Recording {
    /// Returns why a run is over that a call of the session took, by why that ended.
    fn end_by(&self, stop: Stop) -> End
        ensures { result ≡ end_by stop (nat_lt self.now.session.timed.taken self.now.session.limit) }
    {
        match stop {
            Stop::Halted => End::Halted,
            Stop::Breakpoint => End::Breakpoint,
            Stop::Limit => {
                let session = self.session();
                if session.taken() < session.limit() {
                    return End::Limit;
                }
                End::Stuck
            }
        }
    }

    /// Takes `most` steps, past any breakpoint, unless the board halts or the last step is taken first, and
    /// returns which it was.
    ///
    /// # Errors
    ///
    /// `NoMemory` if memory runs out at a step. The steps before it are taken.
    #[tactic(auto, using(crate::proofs::Taken::not_run))]
    pub fn run_steps(&mut self, most: u64) -> Result<End, NoMemory>
        ensures ok { IfOk result
            (HasRun (step_ends self.old.session) most self.old.session self.new.session) }
        ensures err { OnErr result
            (IsRefusedIn (step_ends self.old.session) most self.old.session self.new.session) }
        ensures others { self.new ≡ record self.old { session = self.new.session } }
    {
        let stop = self.step(most)?;
        Ok(self.end_by(stop))
    }

    /// Takes steps up to a breakpoint, and else as [`run_steps`](Recording::run_steps) does. It does not stop
    /// at a breakpoint before the first step.
    ///
    /// # Errors
    ///
    /// As those of [`run_steps`](Recording::run_steps).
    #[tactic(auto, using(crate::proofs::Taken::not_run))]
    pub fn run_to_break(&mut self, most: u64) -> Result<End, NoMemory>
        ensures ok { IfOk result
            (HasRun (break_ends self.old.session) most self.old.session self.new.session) }
        ensures err { OnErr result
            (IsRefusedIn (break_ends self.old.session) most self.old.session self.new.session) }
        ensures others { self.new ≡ record self.old { session = self.new.session } }
    {
        let stop = self.go(most)?;
        Ok(self.end_by(stop))
    }

    /// Takes a step, and returns why a run until a condition ends with it, if it does.
    fn step_until(&mut self, condition: Condition) -> Result<Option<End>, NoMemory>
        ensures took { TakesOne (end_of_step condition self.old.session) self.old self.new result }
        ensures others { self.new ≡ record self.old { session = self.new.session } }
    {
        let Some(outcome) = self.take_step()? else {
            return Ok(Some(End::Stuck));
        };
        let session = self.session();
        Ok(end_after(condition.holds(outcome, session.board()), session))
    }

    /// Takes steps until one after which the condition holds, the board has halted or the next instruction is
    /// at a breakpoint, at most `most`, and returns which it was.
    ///
    /// # Errors
    ///
    /// `NoMemory` if memory runs out at a step. The steps before it are taken.
    pub fn run_until(&mut self, condition: Condition, most: u64) -> Result<End, NoMemory>
        ensures ok { IfOk result
            (HasRun (until_ends condition self.old.session) most self.old.session self.new.session) }
        ensures err { OnErr result
            (IsRefusedIn (until_ends condition self.old.session) most self.old.session self.new.session) }
        ensures others { self.new ≡ record self.old { session = self.new.session } }
    {
        if let Some(end) = end_before(self.session()) {
            return Ok(end);
        }
        for done in 0..most {
            // A copy: for the borrow checker the call moves its argument.
            let asked = condition;
            match self.step_until(asked) {
                Ok(None) => {}
                Ok(Some(end)) => return Ok(end),
                Err(NoMemory) => return Err(NoMemory),
            }
        }
        Ok(End::Limit)
    }
}
