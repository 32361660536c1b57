//! The words of the programs that open a lab.
use clap::ArgMatches;

/// What the words name of a lab that a program opens.
#[derive(Clone, Copy)]
pub struct Opening<'a> {
    /// The path of the source.
    pub source: &'a str,
    /// The path of the timed list, if one is given.
    pub input: Option<&'a str>,
    /// The pages of RAM, of 4096 bytes each: 1 to 4096.
    pub pages: u16,
    /// The slots of the cache of decoded instructions: 64 to 4096.
    pub slots: u16,
}

/// Returns the number of an option, or `usual` where it has none that can be read.
fn number(matches: &ArgMatches<'_>, name: &str, usual: u16) -> u16 {
    match matches.get_str(name) {
        Some(text) => text.parse::<u16>().unwrap_or(usual),
        None => usual,
    }
}

/// Returns what the words name that were parsed by the arguments of `source_arg`, `input_arg`, `pages_arg` and
/// `slots_arg`.
pub fn opening_of<'a>(matches: &ArgMatches<'a>) -> Opening<'a> {
    Opening {
        source: matches.get_str("source").unwrap_or(""),
        input: matches.get_str("input"),
        pages: number(matches, "pages", 256),
        slots: number(matches, "slots", 1024),
    }
}
