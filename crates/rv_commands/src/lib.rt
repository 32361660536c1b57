//! Command lines of the monitor.
//!
//! A line is cut into words at spaces and tabs. A line of more than 1,024 bytes is refused whatever it says.
//! A line without a word, or whose first word begins with `#`, does nothing. Any other line is one of these:
//!
//! - `s [N]`: takes N steps, or one;
//! - `c [N]`: takes up to N steps, or all that are left, up to a breakpoint;
//! - `b ADDR`, `d ADDR`: sets or clears a breakpoint;
//! - `r`: shows all registers, the pc and the mode;
//! - `p NAME`: shows the control register with this name;
//! - `m ADDR N`: shows N bytes of memory, from 1 to 256;
//! - `i ADDR`: shows the instruction at an address;
//! - `t`: shows the last traps;
//! - `e N`: shows the pending edges of source N, from 24 to 31;
//! - `q`: ends the commands.
//!
//! ADDR is `0x` with one to eight hexadecimal digits of either case, or a symbol, whose value is taken modulo
//! 2^32. N is a decimal number of at most 1,000,000,000, with any number of leading zeros.
#![tactic(auto)]

mod address;
mod command;
mod reader;
mod symbol_lookup;

pub use address::hexadecimal;
pub use command::Command;
pub use reader::read_command;
pub use symbol_lookup::SymbolLookup;
