//! What the lab answers, as values, and the one renderer of their text.
#![tactic(auto)]

mod answer;
mod calls_text;
mod command;
mod convention;
mod explained;
mod extent;
mod frames;
mod help;
mod inputs;
mod interrupts;
mod lines;
mod looks;
mod many;
mod memory;
mod moves;
mod printer;
mod profile;
mod refusals;
mod registers;
mod render;
mod runs;
mod shown;
mod states;
mod values;
mod why_text;

pub use answer::{Answer, Refusal, Why};
pub use command::{Command, Move, command_named, command_word};
pub use convention::{Breach, Checked, Deviation, Entry, Return, Unrestored};
pub use explained::{
    Area, Barrier, Before, Explained, Explanation, Handler, Origin, Reason, Repeated, Sum,
    Unfetched, Write,
};
pub use extent::{Extent, Format, read_extent};
pub use frames::{Backtrace, Frame, Outermost, Reached, is_guess};
pub use lines::Lines;
pub use many::{Many, push};
pub use memory::escapes;
pub use moves::{
    Aim, BreakCondition, Breakpoint, Breakpoints, Change, Cleared, Ending, Given, Run, Saved, Step,
    Stepped, Target, Trace, Watch,
};
pub use printer::Printer;
pub use profile::{Profiled, Spent};
pub use shown::{Count, Shown};
pub use states::{
    bits_of, clock_of, has_bit, port_of, region_of, regions_of, sources_of, threshold,
};
pub use values::{
    Bits, Cells, Clock, ControlValue, Devices, Dump, Edges, Interrupts, Place, Port, Range, Region,
    RegisterFile, RegisterValue, Registers, Rights, Row, SourceState, Standing, Trap,
};
