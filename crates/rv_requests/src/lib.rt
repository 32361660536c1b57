//! The requests of gdb's remote protocol: what the contents of a packet ask for.
#![tactic(auto)]

mod names;
mod numbers;
mod reader;
mod request;
mod text;

pub use reader::read_request;
pub use request::{Extent, Part, Point, Request};
