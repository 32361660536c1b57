//! Laws of the board: what follows from the definition of its runs.
ghost use Rattle.std.specs.Prelude.{List};
ghost use Rattle.rv_board.specs.Laws.{KeepsLocked};
ghost use Rattle.rv_board.specs.Move.{run};
ghost use Rattle.rv_board.specs.BoardState.{BoardState};
ghost use Rattle.rv_board.specs.declared.event.Event.{Event};
ghost use Rattle.rv_board.specs.Room.{RoomIsWritten};

/// Law: a locked entry of protection is as it was after any events, with its address, its configuration and,
/// if it is the top of a range, the address below it. RISC-V Privileged Architecture 20211203, section 3.7.1.
#[tactic(auto, using(crate::proofs::Locked::locked_stay))]
pub fn locked_entries_stay()
    ensures { (b : BoardState) (events : List Event)
        → KeepsLocked b.machine.csrs.pmp (run b events).machine.csrs.pmp }
{}

/// Law: room has to be made only where an event is a step that retires a store into the memory or to the
/// transmit register, so that the clauses `room` imply the clauses `writes`.
#[tactic(auto, using(crate::proofs::Growth::room_writes))]
pub fn room_is_written()
    ensures { RoomIsWritten }
{}
