//! Reads a line of a source: its labels and its statement.
//!
//! The language is this project's own: see docs/ASSEMBLER.md.
#![tactic(auto)]

mod expression;
mod field;
mod line;
mod list;
mod operand;
mod reader;
mod row;
mod shape;
mod statement;
mod table;
mod terms;
mod words;

pub use expression::{Atom, Expression, Term};
pub use line::{Body, Label, Line, LineForm};
pub use list::List;
pub use operand::{Form, Operand, Part, one_form};
pub use reader::{label_of, read_line, read_line_form};
pub use row::Role;
pub use rv_base::{Cut, cut_lines};
pub use rv_tokens::{Direction, LineFault, Name, Text};
pub use shape::{Shape, is_in_role, shape_of, word_at};
pub use statement::{Statement, Strings, Value, Values};
pub use terms::one_value;
