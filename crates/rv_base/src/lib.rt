//! Text, numbers and limits that all crates share.
//!
//! - `cut_lines` cuts a text into lines, and `first_word` takes the first word off a line.
//! - `number_in`, `decimal`, `hex_digit` and `hex_byte` read numbers; `append_hex`, `byte_digits` and
//!   `word_digits` write them.
//! - `low_word` and the functions beside it read and replace the halves of 64 bits.
//! - `look_up` finds a name in a table.
//! - `append_within` appends to a text that has room, and `NoMemory` is the error of one that could get none.
//! - `RAM_BASE`, `IMAGE_LIMIT`, `TEXT_LIMIT` and `LINE_LIMIT` are the limits.
//!
//! Nothing here asks an allocator.
#![tactic(auto)]

mod digits;
mod halves;
mod limits;
mod lines;
mod memory;
mod numbers;
mod tables;
mod words;

pub use digits::{append_hex, byte_digits, word_digits};
pub use halves::{high_word, low_word, with_high_word, with_low_word};
pub use limits::{IMAGE_LIMIT, LINE_LIMIT, RAM_BASE, TEXT_LIMIT};
pub use lines::{Cut, cut_lines};
pub use memory::{NoMemory, append_within};
pub use numbers::{decimal, hex_byte, hex_digit, number_in};
pub use tables::look_up;
pub use words::{begins_comment, first_word, has_word, is_blank};
