//! The lab: a board with its source, whose state is asked for and moved by command lines. There are no files
//! and no terminal in it.
#![tactic(auto)]

mod breaks;
mod command;
mod control;
mod devices;
mod diagnosis;
mod execute;
mod fault;
mod inputs;
mod lab;
mod looks;
mod marks;
mod memory;
mod monitor;
mod operands;
mod order;
mod places;
mod recorded;
mod render;
mod run;
mod source;
mod steps;
mod tell;
mod trail;
mod watch;
mod why;

pub use diagnosis::append_diagnosis;
pub use fault::LabFault;
pub use inputs::saved_repeats;
pub use lab::{Lab, Next, Reply, Sizes};
pub use run::pieces_join;
pub use rv_answers::{Answer, Printer};
