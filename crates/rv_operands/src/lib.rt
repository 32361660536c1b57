//! What the operands of the lab's commands mean: numbers, lines and addresses, conditions, and inputs.
//!
//! They are read by the lines and the symbols of the source, and by the board as it stands (docs/LAB.md).
#![tactic(auto)]

mod condition;
mod input;
mod place;
mod word;

pub use condition::Leading;
pub use input::read_bytes_inputs;
pub use place::{Scope, line_with_bytes};
pub use word::{line_number, number, only_word, operands_of, trimmed, without_last};
