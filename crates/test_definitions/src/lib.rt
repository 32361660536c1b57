//! The definitions of the machine, run: rows of values that a reader can check against the standards.
//!
//! Each table of rows is used twice. A law says that the definitions give each row, and its proof computes them.
//! A test asks the program for the same rows: it is in test_surface, since a crate with tests is proved twice. So
//! definition and program meet on values, and not only in proofs: a wrong definition is refused here even if the
//! program were wrong in the same way.
//!
//! The rows have what the standards say, and no value that the program printed.
#![tactic(auto)]

pub mod controller;
pub mod protection;
pub mod registers;
pub mod runs;
pub mod timer;
pub mod traps;
pub mod values;
pub mod words;
