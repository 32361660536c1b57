//! The calls in which a board stands, by the frames of its source's functions.
#![tactic(auto)]

mod calls;
mod frames;
mod level;
mod rows;

pub use frames::backtrace;
