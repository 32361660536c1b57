//! The lexer of the assembler: cuts a line of a source into its tokens.
//!
//! The language is this project's own: see docs/ASSEMBLER.md.
#![tactic(auto)]

mod fault;
mod literal;
mod name;
mod place;
mod scan;
mod token;

pub use fault::LineFault;
pub use literal::between;
pub use name::Name;
pub use place::{Place, place_of, stuck_at};
pub use scan::{cut_line, one_cut};
pub use token::{Direction, Text, Token};
