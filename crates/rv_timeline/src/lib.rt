//! Timed lists: received bytes and levels of interrupt lines, each with the step that it comes before.
//!
//! A text is cut into lines as a source is, and a line into words at spaces and tabs. A line of more than
//! 1,024 bytes is refused whatever it says. A line without a word, or whose first word begins with `#`, has
//! no input. Any other line is one of these:
//!
//! - `STEP rx HH HH ..`: the serial port receives one or more bytes, each of two hexadecimal digits in either
//!   case;
//! - `STEP line N V`: the line of interrupt source N, from 1 to 31, is high from now on if V is `1`, and low
//!   if it is `0`.
//!
//! STEP has one to ten decimal digits, and is no less than the STEP of any line before. STEP and N may have
//! leading zeros.
#![tactic(auto)]

mod fault;
mod input;
mod number;
mod reader;
mod timeline;
mod writer;

pub use fault::TimelineFault;
pub use input::{Input, TimedInput};
pub use reader::line_input;
pub use timeline::Timeline;
pub use writer::list_text;
