//! The words of the command line, read with `clap`: `rvlab SOURCE [--input F] [--pages P]
//! [--slots S] [--json]`.
use clap::ArgMatches;
use rv_lab::Sizes;
use rv_options::{Argument, INPUT, Opening, PAGES, SLOTS, SOURCE, Usage, opening_of};

/// What the words of the command line ask for.
#[derive(Clone, Copy)]
pub struct Words<'a> {
    /// What they name of the lab.
    pub opening: Opening<'a>,
    /// Whether each command line gets a line of JSON.
    pub is_json: bool,
}

impl Words<'_> {
    /// Returns the sizes of the board.
    pub fn sizes(&self) -> Sizes {
        let Opening { pages, slots, .. } = self.opening;
        Sizes { pages, slots }
    }
}

/// The option `--json`.
const JSON: Argument<'static> = Argument::Flag {
    name: "json",
    help: "answer each command line by a line of JSON",
};

/// The usage of the program.
pub const USAGE: Usage<'static> = Usage {
    name: "rvlab",
    about: "assembles a program and asks a small RISC-V board about it, command by command",
    version: None,
    arguments: &[SOURCE, INPUT, PAGES, SLOTS, JSON],
};

/// Returns what words ask for that were parsed by `USAGE`.
pub fn words_of<'a>(matches: &ArgMatches<'a>) -> Words<'a> {
    Words {
        opening: opening_of(matches),
        is_json: matches.get_flag("json"),
    }
}
