//! Runs out of calls.
ghost use Rattle.std.specs.Prelude.{◌≡◌, ◌-◌, ◌==◌, IfOk, OnErr};
ghost use Rattle.std.specs.Option.{option_and_then};
ghost use Rattle.rv_isa.specs.Support.Meaning.{means};
ghost use Rattle.rv_board.specs.Support.State.{pc_of};
ghost use Rattle.rv_hart.specs.declared.trap.Outcome.TheVariants.{Retired};
ghost use Rattle.rv_monitor.specs.State.{after};
ghost use Rattle.rv_monitor.specs.Stops.{steps_between};
ghost use Rattle.rv_monitor.specs.Views.{word_at};
ghost use Rattle.rv_recording.specs.Out.{is_inside, is_out, open_after, open_at, out_ends};
ghost use Rattle.rv_recording.specs.Until.{HasRun};
ghost use Rattle.rv_recording.specs.Refused.{IsRefusedIn};
ghost use Rattle.rv_recording.specs.Support.Steps.{CountsOne, TakesOne, after_call, end_after, next_of};

use crate::Recording;
use crate::until::{End, end_after, end_before};
use rv_base::NoMemory;
use rv_board::BootedBoard;
use rv_hart::Outcome;
use rv_isa::{Instr, Kind, decode};
use rv_monitor::word_at;

/// The bytes of a line of a source.
#[derive(Clone, Copy)]
pub struct Span {
    /// The address of the first.
    pub address: u32,
    /// How many they are.
    pub size: usize,
}

/// Returns the number of open calls with one more.
fn after_call(calls: u64) -> u64
    ensures { result ≡ after_call calls }
{
    calls.saturating_add(1)
}

/// Returns the instruction at the pc, if there is one.
fn next_instr(board: &BootedBoard) -> Option<Instr>
    ensures { result ≡ option_and_then means (word_at board.now (pc_of board.now)) }
{
    decode(word_at(board, board.pc())?)
}

/// Returns the number of open calls after a step that retired, by its instruction.
#[tactic(auto, unfolding(crate::specs::Out::open_after))]
fn open_by(calls: u64, instr: Option<Instr>) -> u64
    ensures { result ≡ open_after calls Retired instr }
{
    let Some(instr) = instr else {
        return calls;
    };
    match instr.kind() {
        Kind::Jal { rd, .. } => {
            if rd.number() == 1 {
                return after_call(calls);
            }
            calls
        }
        Kind::Jalr { rd, base, .. } => {
            if rd.number() == 1 {
                return after_call(calls);
            }
            if rd.number() == 0 && base.number() == 1 {
                return calls.saturating_sub(1);
            }
            calls
        }
        Kind::Mret => calls.saturating_sub(1),
        _ => calls,
    }
}

/// Returns the number of open calls after a step that did that.
#[tactic(auto, unfolding(crate::specs::Out::open_after))]
fn open_after(calls: u64, outcome: Outcome, instr: Option<Instr>) -> u64
    ensures { result ≡ open_after calls outcome instr }
{
    match outcome {
        Outcome::Trapped { .. } => after_call(calls),
        Outcome::Retired => open_by(calls, instr),
        Outcome::Halted => open_by(calls, instr),
    }
}

/// Returns whether pc is inside of a line: at one of its bytes, but not at the first.
fn is_inside(line: Option<Span>, board: &BootedBoard) -> bool
    ensures { result ≡ is_inside line board.now }
{
    let pc = board.pc();
    match line {
        Some(line) => line.address < pc && ((pc - line.address) as usize) < line.size,
        None => false,
    }
}

/// Returns whether a run is out of its calls and its line.
#[tactic(auto, unfolding(crate::specs::Out::is_out))]
fn is_out(line: Option<Span>, calls: u64, board: &BootedBoard) -> bool
    ensures { result ≡ is_out line calls board.now }
{
    !is_inside(line, board) && calls == 0
}

impl Recording {
    /// Takes a step of a run out of calls, and returns why the run ends with it, if it does.
    fn step_out(&mut self, calls: &mut u64, line: Option<Span>) -> Result<Option<End>, NoMemory>
        ensures took { TakesOne (end_after (is_out line calls.new (after self.old.session.timed 1).board)
            (next_of self.old.session)) self.old self.new result }
        ensures count { IfOk result (λ end. CountsOne calls.old calls.new self.old) }
        ensures refused { OnErr result (calls.new ≡ calls.old) }
        ensures others { self.new ≡ record self.old { session = self.new.session } }
    {
        let instr = next_instr(self.session().board());
        let Some(outcome) = self.take_step()? else {
            return Ok(Some(End::Stuck));
        };
        *calls = open_after(*calls, outcome, instr);
        let is_over = is_out(line, *calls, self.session().board());
        Ok(end_after(is_over, self.session()))
    }

    /// Takes steps until one after which no call is open and pc isn't inside of a line, the board has halted or the next
    /// instruction is at a breakpoint, at most `most`, and returns which it was. `calls` is the number of calls and
    /// handlers that are open; 1 stands for the present function.
    ///
    /// # Errors
    ///
    /// `NoMemory` if memory runs out at a step. The steps before it are taken.
    pub fn run_out(
        &mut self,
        calls: &mut u64,
        line: Option<Span>,
        most: u64,
    ) -> Result<End, NoMemory>
        ensures ok { IfOk result
            (HasRun (out_ends calls.old line self.old.session) most self.old.session self.new.session) }
        ensures err { OnErr result
            (IsRefusedIn (out_ends calls.old line self.old.session) most self.old.session self.new.session) }
        ensures calls { calls.new ≡ open_at calls.old self.old.session.timed
            (steps_between self.old.session.timed self.new.session.timed) }
        ensures others { self.new ≡ record self.old { session = self.new.session } }
    {
        if let Some(end) = end_before(self.session()) {
            return Ok(end);
        }
        for done in 0..most {
            match self.step_out(calls, line) {
                Ok(None) => {}
                Ok(Some(end)) => return Ok(end),
                Err(NoMemory) => return Err(NoMemory),
            }
        }
        Ok(End::Limit)
    }
}
