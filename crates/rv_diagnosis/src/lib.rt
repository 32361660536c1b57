//! Says what is wrong with a source and where, and what mends it.
//!
//! - `diagnose` gives the faulty lines of a source, each with its place.
//! - `explain` gives the sentence of a diagnosis, and advice.
//! - `append_report` writes diagnoses as compilers print them.
//!
//! Which lines are faulty, and of what kind, is proved. A place is proved to lie in its line; which one it is,
//! and what a sentence says, is tested.
#![tactic(auto)]

mod characters;
mod diagnosis;
mod explanation;
mod faults;
mod finding;
mod fit;
mod foreign;
mod misplaced;
mod names;
mod operands;
mod place;
mod report;
mod spot;
mod syntax;
mod text;
mod unread;
mod values;

pub use diagnosis::{Detail, Diagnosis, Field};
pub use explanation::{Explanation, explain};
pub use faults::diagnose;
pub use report::append_report;
