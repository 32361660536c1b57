//! The functions of an accepted source, and the frames of their calls, computed from the words of its image.
//!
//! Where a function begins and what it saves is a guess that fits how programs are written: no contract says that it is
//! right. What is computed is safe for every image.
#![tactic(auto)]

mod code;
mod entries;
mod functions;
mod instructions;
mod places;
mod row;
mod rows;
mod state;
mod walk;

pub use functions::functions_of;
pub use places::Entry;
pub use row::{FrameRow, Kept};
pub use rows::frame_rows;
pub use state::Stack;
