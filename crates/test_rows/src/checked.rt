//! The results of checks.
use rv_base::NoMemory;
use std::alloc::AllocError;
use std::io::Write;

/// Why a value or an answer is missing.
#[derive(Clone, Copy)]
pub enum Wrong {
    /// Memory ran out.
    OutOfMemory,
    /// This is wrong.
    What(&'static str),
}

/// A value, or what was wrong.
pub type Checked<T> = Result<T, Wrong>;

/// Checks that something holds; `what` names it where it doesn't.
pub fn check(holds: bool, what: &'static str) -> Checked<()> {
    if holds {
        Ok(())
    } else {
        Err(Wrong::What(what))
    }
}

impl Wrong {
    /// Returns it in words.
    pub fn words(self) -> &'static str {
        match self {
            Wrong::OutOfMemory => "out of memory",
            Wrong::What(what) => what,
        }
    }
}

impl From<NoMemory> for Wrong {
    fn from(_why: NoMemory) -> Self {
        Wrong::OutOfMemory
    }
}

impl From<AllocError> for Wrong {
    fn from(_why: AllocError) -> Self {
        Wrong::OutOfMemory
    }
}

/// Prints the line of a check.
pub fn print_result(rt: &HostRuntime, name: &str, words: &str) {
    for piece in [name, words, "\n"] {
        let _ = rt.stdout().write_all(piece.as_bytes());
    }
}
