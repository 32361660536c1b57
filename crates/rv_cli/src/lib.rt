//! The run from a source text, a timed list and commands to the text that is printed: how it ends, the faults
//! for which it has no ending, the lines that are printed of both, and the exit status.
#![tactic(auto)]

mod fault;
mod laws;
mod print;
mod run;
mod session;
mod status;

pub use fault::{CliFault, Ending, exit_status, fault_line, file_or_fault};
pub use laws::one_output;
pub use run::run_text;
pub use rv_io::{
    FileIn, FileOut, InFailed, MemoryIn, MemoryOut, OutFailed, ReadFault, TextIn, TextName, TextOut,
};
pub use rv_options::{
    Options, Origin, REFUSED, Words, read_words, refusal_status, refuse_words, run_with_words,
};
