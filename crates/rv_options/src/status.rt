//! The exit status where the words of the command line ask for no run.
ghost use Rattle.std.specs.Prelude.{◌≡◌};
ghost use Rattle.clap.specs.Words.{kind_of};
ghost use Rattle.rv_options.specs.Status.{status_of_error};

use clap::Error;
use clap::error::ErrorKind;

/// The exit status of words that are refused.
pub const REFUSED: u8 = 3;

/// The exit status where a file can't be read or written, or memory ran out.
pub const FAILED: u8 = 4;

/// Returns the exit status that an error of `read_words` gives: 0 after help, 3 for refused words, 4 where
/// memory ran out.
pub fn refusal_status(error: &Error) -> u8
    ensures { result ≡ status_of_error (kind_of error.now) }
{
    match error.kind() {
        ErrorKind::DisplayHelp => 0,
        ErrorKind::OutOfMemory => FAILED,
        _ => REFUSED,
    }
}
