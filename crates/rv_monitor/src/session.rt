//! Sessions: what a caller may ask of one.
ghost use Rattle.std.specs.Prelude.{◌≡◌, ◌==◌, ◌≤◌, ℕ, ◌+◌, true, false, List, drop, OnOk, OnErr, IfOk};
ghost use Rattle.std.specs.FinSet as set;
ghost use Rattle.rv_board.specs.Move.{run};
ghost use Rattle.rv_board.specs.Support.State.{BoardState};
ghost use Rattle.rv_timeline.specs.Timed.{inserted, never_falls};
ghost use Rattle.rv_timeline.specs.declared.input.Input.{Input};
ghost use Rattle.rv_timeline.specs.declared.input.TimedInput.{TimedInput};
ghost use Rattle.rv_program.specs.Program.{Assembly};
ghost use Rattle.rv_monitor.specs.Events.{events_of};
ghost use Rattle.rv_monitor.specs.Laws.{IsReached};
ghost use Rattle.rv_monitor.specs.Resumed.{resumed_at};
ghost use Rattle.rv_monitor.specs.Room.{NextWantsRoom};
ghost use Rattle.rv_monitor.specs.State.{TimedState, SessionState, IsInTime, new_session, begun, count_before, after, with_due, with_break, without_break, given};
ghost use Rattle.rv_monitor.specs.Stops.{Took, WasRefused, stop_of, TakesStep};

use crate::breakpoints::Breakpoints;
use crate::stop::Stop;
use crate::timed::TimedBoard;
use rv_base::NoMemory;
use rv_board::Board;
use rv_cache::Decoded;
use rv_hart::Outcome;
use rv_program::Program;
use rv_ram::ByteMemory;
use rv_timeline::{Input, TimedInput, Timeline};
use std::alloc::Global;
use std::marker::Model;

/// A board with the program that it was booted with, its timed inputs, a limit of steps, and breakpoints.
///
/// Step number t, counted from 0, follows the inputs of time t in their order. However many calls take the
/// steps, the board ends as if one call had taken them all.
pub struct Session<M: ByteMemory, C: Decoded> {
    timed: TimedBoard<M, C>,
    program: Program,
    /// The largest number of steps that may be taken in all.
    limit: u64,
    breakpoints: Breakpoints,
}

// Hand-written: a derived `Drop` would be proved anew at each exit (docs/PROVING.md).
impl<M: ByteMemory, C: Decoded> Drop for Session<M, C> {
    fn drop(self) {
        let Session {
            timed: _,
            program: _,
            limit: _,
            breakpoints: _,
        } = self;
    }
}

impl<M: ByteMemory, C: Decoded> Model for Session<M, C> {
    ghost use Rattle.std.specs.Prelude.{◌≤◌};
    ghost use Rattle.std.specs.Coded.{codes, coded_ℕ};
    ghost use Rattle.std.specs.FinSet as set;
    ghost use Rattle.std.specs.Ordering.{nat_cmp};
    ghost use Rattle.rv_plic.specs.Support.Codes.{plic_code};
    ghost use Rattle.rv_monitor.specs.State.{SessionState};

    ghost Value = { SessionState };

    ghost coded = { Prim.hlevel (codes, plic_code, set.code {R = nat_cmp} coded_ℕ) };

    ghost view = { λ s. record { timed = s.timed; program = s.program; limit = s.limit; breakpoints = s.breakpoints } };

    ghost invariant = { λ s. s.timed.taken ≤ s.limit };
}

impl<M: ByteMemory, C: Decoded> Session<M, C> {
    /// Returns a session that has taken no step and may take `limit` steps, without breakpoints. It does not
    /// allocate.
    pub fn new(
        alloc: Global,
        board: Board<M, C>,
        timeline: Timeline,
        program: Program,
        limit: u64,
    ) -> Session<M, C>
        ensures { result ≡ new_session board timeline program limit }
    {
        Session {
            timed: TimedBoard::new(board, timeline),
            program,
            limit,
            breakpoints: Breakpoints::new(alloc),
        }
    }

    /// Returns the board.
    pub fn board(&self) -> &Board<M, C>
        ensures value { result.now ≡ self.now.timed.board }
        ensures in_time { IsInTime self.now.timed }
    {
        self.timed.board()
    }

    /// Returns the program that the board was booted with.
    pub fn program(&self) -> &Program
        ensures { result.now ≡ self.now.program }
    {
        &self.program
    }

    /// Returns how many steps the session has taken.
    pub fn taken(&self) -> u64
        ensures value { result ≡ self.now.timed.taken }
        ensures most { result ≤ self.now.limit }
    {
        let _limit = self.limit;
        self.timed.taken()
    }

    /// Returns the largest number of steps that may be taken in all.
    pub fn limit(&self) -> u64
        ensures { result ≡ self.now.limit }
    {
        self.limit
    }

    /// Returns whether an address is a breakpoint.
    pub fn has_break(&self, address: u32) -> bool
        ensures { result ≡ set.contains self.now.breakpoints.addresses address }
    {
        self.breakpoints.contains(address)
    }

    /// Returns the addresses of the breakpoints, each once, in an order that isn't specified.
    pub fn breakpoints(&self) -> &[u32]
        ensures { set.from_list result.now ≡ self.now.breakpoints.addresses }
    {
        self.breakpoints.as_slice()
    }

    /// Makes an address a breakpoint. Room is made for nine breakpoints at a time.
    ///
    /// # Errors
    ///
    /// `NoMemory` if memory runs out, which it can only for an address that is no breakpoint yet, where the
    /// breakpoints have no room. Nothing changes then.
    pub fn set_break(&mut self, address: u32) -> Result<(), NoMemory>
        ensures ok { OnOk result (self.new ≡ with_break self.old address) }
        ensures err { OnErr result (self.new ≡ self.old) }
        ensures absent { OnErr result (set.contains self.old.breakpoints.addresses address ≡ false) }
        ensures room { OnErr result (self.old.breakpoints.room ≡ 0) }
    {
        self.breakpoints.insert(address)
    }

    /// Removes a breakpoint, and returns whether it was there.
    pub fn clear_break(&mut self, address: u32) -> bool
        ensures was { result ≡ set.contains self.old.breakpoints.addresses address }
        ensures gone { self.new ≡ without_break self.old address }
    {
        self.breakpoints.remove(address)
    }

    /// Takes `n` steps, past any breakpoint, unless the board halts or the limit comes first.
    ///
    /// # Errors
    ///
    /// `NoMemory` if memory runs out at a step. The steps before it are taken, and the inputs before it are
    /// given. The next call goes on with that step, and gives no input again.
    #[tactic(auto, using(crate::proofs::SessionCalls::took, crate::proofs::SessionCalls::word, crate::proofs::SessionCalls::was_refused))]
    pub fn step(&mut self, n: u64) -> Result<Stop, NoMemory>
        ensures took { OnOk result (Took set.empty n self.old self.new) }
        ensures stop { IfOk result (λ stop. stop ≡ stop_of set.empty self.old self.new) }
        ensures err { OnErr result (WasRefused set.empty n self.old self.new) }
        ensures room { OnErr result (NextWantsRoom M.wants_room self.new) }
    {
        let most = n.min(self.limit - self.timed.taken());
        self.timed.advance(most, None)
    }

    /// Takes `n` steps, unless the board halts, comes to a breakpoint, or the limit comes first. It does not
    /// stop at a breakpoint before the first step.
    ///
    /// # Errors
    ///
    /// As those of [`step`](Session::step).
    #[tactic(auto, using(crate::proofs::SessionCalls::took, crate::proofs::SessionCalls::word, crate::proofs::SessionCalls::was_refused))]
    pub fn go(&mut self, n: u64) -> Result<Stop, NoMemory>
        ensures took { OnOk result (Took self.old.breakpoints.addresses n self.old self.new) }
        ensures stop { IfOk result (λ stop. stop ≡ stop_of self.old.breakpoints.addresses self.old self.new) }
        ensures err { OnErr result (WasRefused self.old.breakpoints.addresses n self.old self.new) }
        ensures room { OnErr result (NextWantsRoom M.wants_room self.new) }
    {
        let most = n.min(self.limit - self.timed.taken());
        self.timed.advance(most, self.breakpoints.if_any())
    }

    /// Takes one step, past any breakpoint, and returns what it did, or None if the board has halted or the
    /// limit is reached.
    ///
    /// # Errors
    ///
    /// As those of [`step`](Session::step).
    pub fn take_step(&mut self) -> Result<Option<Outcome>, NoMemory>
        ensures step { TakesStep self.old self.new result }
        ensures room { OnErr result (NextWantsRoom M.wants_room self.new) }
    {
        if self.board().halted().is_some() || self.timed.taken() >= self.limit {
            return Ok(None);
        }
        Ok(Some(self.timed.take_step()?))
    }

    /// Returns the inputs in their order, those among them that were given by hand.
    pub fn inputs(&self) -> &[TimedInput]
        ensures value { result.now ≡ self.now.timed.inputs }
        ensures rising { never_falls result.now ≡ true }
    {
        self.timed.inputs()
    }

    /// Gives the board an input at once: it comes before the next step, after all other inputs of that step,
    /// and the session's list has it from now on. A board that has halted takes none.
    ///
    /// # Errors
    ///
    /// `NoMemory` if memory runs out. Nothing changes then.
    pub fn give(&mut self, input: Input) -> Result<(), NoMemory>
        ensures ok { OnOk result (self.new ≡ record self.old { timed = given self.old.timed input }) }
        ensures err { OnErr result (self.new ≡ self.old) }
    {
        self.timed.give(input)
    }

    /// Puts the session to where `n` steps end that are taken from a board on, with all of its inputs: from
    /// one that has taken the first `taken` steps of this session and was given no input of the next step. A
    /// board at reset has taken none of them. The breakpoints stay.
    ///
    /// # Errors
    ///
    /// `NoMemory` if memory runs out at one of these steps. Nothing changes then.
    #[tactic(auto, using(crate::proofs::SessionCalls::took, crate::proofs::SessionCalls::word))]
    pub fn resume(&mut self, board: Board<M, C>, taken: u64, n: u64) -> Result<Stop, NoMemory>
        requires { taken ≤ self.old.limit }
        ensures took { OnOk result (Took set.empty n (resumed_at self.old board taken) self.new) }
        ensures stop { IfOk result (λ stop. stop ≡ stop_of set.empty (resumed_at self.old board taken) self.new) }
        ensures err { OnErr result (self.new ≡ self.old) }
    {
        let most = n.min(self.limit - taken);
        self.timed.resume(board, taken, most)
    }

    /// Returns whether no input of the next step was given, so that the board is what the steps taken left.
    pub fn awaits_inputs(&self) -> bool
        ensures { result ≡ (self.now.timed.place == count_before self.now.timed.taken self.now.timed.inputs) }
    {
        self.timed.awaits_inputs()
    }
}

/// Law: steps may be taken in any number of calls, and the call after one that ran out of memory goes on
/// where that one stopped.
#[tactic(auto, using(crate::proofs::Steps::runs_join, crate::proofs::Steps::after_none, crate::proofs::Steps::after_more, crate::proofs::Steps::again))]
pub fn calls_join()
    // A run of the first steps and then of the next, with the inputs that are left, is the run of all.
    ensures runs { (b : BoardState) (timed : List TimedInput) (k j : ℕ) → never_falls timed ≡ true
        → run (run b (events_of timed 0 k)) (events_of (drop (count_before k timed) timed) k j)
        ≡ run b (events_of timed 0 (k + j)) }

    // So steps may be taken in any number of calls, and no step is no change.
    ensures none { (s : TimedState) → IsInTime s → after s 0 ≡ s }
    ensures more { (s : TimedState) → IsInTime s → (k j : ℕ) → after (after s k) j ≡ after s (k + j) }

    // After memory ran out at a step, the next call goes on with that step, and gives no input again.
    ensures again { (s : TimedState) → IsInTime s → (k j : ℕ)
        → after (with_due (after s k)) (1 + j) ≡ after s (k + (1 + j)) }
{}

/// Law: the breakpoints of a session are a set of addresses, which is empty before its first step.
pub fn breakpoints_are_a_set()
    ensures none { (board : BoardState) (inputs : List TimedInput) (program : Assembly) (limit : ℕ)
        → (new_session board inputs program limit).breakpoints.addresses ≡ set.empty }
    ensures more { (s : SessionState) (address : ℕ)
        → (with_break s address).breakpoints.addresses ≡ set.insert s.breakpoints.addresses address }
    ensures less { (s : SessionState) (address : ℕ)
        → (without_break s address).breakpoints.addresses ≡ set.remove s.breakpoints.addresses address }
{}

/// Law: an input that is given by hand is the same as one that stood in the list from the start.
#[tactic(auto, using(crate::proofs::Reached::given_listed))]
pub fn given_as_listed()
    ensures reached { (board : BoardState) (s : TimedState) (input : Input) → IsReached board s
        → IsReached board (given s input) }
    ensures same { (board : BoardState) (s : TimedState) (input : Input) → IsReached board s → given s input
        ≡ with_due (after (begun board (inserted s.inputs (record { step = s.taken; input = input }))) s.taken) }
{}
