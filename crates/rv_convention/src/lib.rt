//! What the steps of a recording tell: breaches of the calling convention (what a return didn't restore, and what was
//! used below sp), and where the steps were spent.
#![tactic(auto)]

mod breaches;
mod calls;
mod follow;
mod registers;
mod rows;
mod tally;
mod turn;

pub use breaches::check;
pub use registers::registers_of;
pub use rows::profile;
