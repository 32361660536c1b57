//! The words of the command line, read with `clap`: `rvgdb SOURCE [--input F] [--pages P] [--slots S]
//! [--no-questions]`.
use clap::ArgMatches;
use rv_options::{Argument, INPUT, Opening, PAGES, SLOTS, SOURCE, Usage, opening_of};

/// What the words of the command line ask for.
#[derive(Clone, Copy)]
pub struct Words<'a> {
    /// What they name of the lab.
    pub opening: Opening<'a>,
    /// Whether gdb is asked during a run if it is to stop.
    pub asks: bool,
}

/// The option `--no-questions`.
const NO_QUESTIONS: Argument<'static> = Argument::Flag {
    name: "no-questions",
    help: "don't ask the debugger during a run if it is to stop, for those that know no such question (lldb)",
};

/// The usage of the program.
pub const USAGE: Usage<'static> = Usage {
    name: "rvgdb",
    about: "assembles a program and serves gdb a small RISC-V board that runs it, over the standard input and output",
    version: None,
    arguments: &[SOURCE, INPUT, PAGES, SLOTS, NO_QUESTIONS],
};

/// Returns what words ask for that were parsed by `USAGE`.
pub fn words_of<'a>(matches: &ArgMatches<'a>) -> Words<'a> {
    Words {
        opening: opening_of(matches),
        asks: !matches.get_flag("no-questions"),
    }
}
