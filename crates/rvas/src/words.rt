//! The words of the command line, read with `clap`: `rvas SOURCE [-o FILE] [--form elf|bin|hex] [--listing]`.
use clap::ArgMatches;
use rv_options::{Argument, SOURCE, Usage};

/// What the words of the command line ask for.
#[derive(Clone, Copy)]
pub struct Words<'a> {
    /// The path of the source.
    pub source: &'a str,
    /// The path of the file that is written, if one is given.
    pub output: Option<&'a str>,
    /// The name of its form, if one is given.
    pub form: Option<&'a str>,
    /// Whether the listing is printed.
    pub wants_listing: bool,
}

/// The usage of the program.
pub const USAGE: Usage<'static> = Usage {
    name: "rvas",
    about: "assembles a program for a small RISC-V board into a file for other tools",
    version: Some("1.0"),
    arguments: &[
        SOURCE,
        Argument::Text {
            name: "output",
            letter: Some('o'),
            value_name: "FILE",
            help: "the file to write: its form is that of its ending, .elf, .bin or .hex",
        },
        Argument::Choice {
            name: "form",
            value_name: "FORM",
            help: "the form of FILE, whatever its ending is",
            choices: &["elf", "bin", "hex"],
        },
        Argument::Flag {
            name: "listing",
            help: "print each line with its number, its address and its bytes",
        },
    ],
};

/// Returns what words ask for that were parsed by `USAGE`.
pub fn words_of<'a>(matches: &ArgMatches<'a>) -> Words<'a> {
    Words {
        source: matches.get_str("source").unwrap_or(""),
        output: matches.get_str("output"),
        form: matches.get_str("form"),
        wants_listing: matches.get_flag("listing"),
    }
}
