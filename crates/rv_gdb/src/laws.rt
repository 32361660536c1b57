//! Laws of the talk with gdb.
ghost use Rattle.rv_gdb.specs.Laws.{OutputGrows, PiecesJoin};

/// Says that a stream in two pieces leaves and appends what it does as a whole, and does nothing.
#[tactic(auto, using(crate::proofs::Talking::pieces))]
pub fn pieces_join()
    ensures { PiecesJoin }
{}

/// Says that what a stream says only appends to the output, and does nothing.
#[tactic(auto, using(crate::proofs::Talking::grows))]
pub fn output_grows()
    ensures { OutputGrows }
{}
