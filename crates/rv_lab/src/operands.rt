//! The operands of commands: counts, passed hits and addresses.
ghost use Rattle.std.specs.Prelude.{◌≡◌, ◌-◌, ◌<◌, ◌==◌, if◌then◌else◌, None, Some, option_and_then};
ghost use Rattle.rv_base.specs.Numbers.{number_in};
ghost use Rattle.rv_base.specs.Words.{words};
ghost use Rattle.rv_asm.specs.Seen.{seen};
ghost use Rattle.rv_lab.specs.State.{board, listing};
ghost use Rattle.rv_lab.specs.Words.{count_of, passes};

use crate::lab::Lab;
use rv_base::{decimal, first_word, has_word};
use rv_operands::{Scope, only_word};

/// Reads the only word of a text as a number of at most `most`, or returns `usual` where there is no word.
pub(crate) fn count_or(text: &[u8], usual: u64, most: u64) -> Option<u64>
    requires { most < 10000000000 }
    ensures { result ≡ count_of usual most (words text.now) }
{
    if !has_word(text) {
        return Some(usual);
    }
    decimal(most, only_word(text)?)
}

/// The most that `N` of `after N` may be.
const MOST_HITS: u64 = 1_000_000_000;

/// Returns how many hits are passed before the one with a number, from 1.
fn passes_before(word: &[u8]) -> Option<u64>
    ensures { result ≡ option_and_then (λ n. if n == 0 then None else Some (n - 1)) (number_in 10 1000000000 word.now) }
{
    match decimal(MOST_HITS, word)? {
        0 => None,
        number => Some(number - 1),
    }
}

/// Returns how many hits a breakpoint passes before one stops a run: `N - 1` of a text `after N`, and none of a text
/// without words.
#[tactic(auto, unfolding(crate::specs::Words::passes))]
pub(crate) fn passes(text: &[u8]) -> Option<u64>
    ensures { result ≡ passes (words text.now) }
{
    let Some((word, rest)) = first_word(text) else {
        return Some(0);
    };
    if word != b"after".as_slice() {
        return None;
    }
    passes_before(only_word(rest)?)
}

impl Lab {
    /// Returns what operands speak of.
    pub(crate) fn scope(&self) -> Scope<'_>
        ensures listing { seen result.listing ≡ listing self.now }
        ensures board { result.board.now ≡ board self.now }
    {
        Scope {
            listing: self.listing(),
            board: self.board(),
        }
    }
}
