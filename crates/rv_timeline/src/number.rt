//! Reads numbers.
ghost use Rattle.std.specs.Prelude.{◌≡◌};
ghost use Rattle.rv_timeline.specs.Support.Reading.{source_of, level_of};
ghost use Rattle.rv_timeline.specs.Timed.{step_of};

use rv_base::{decimal, look_up};
use rv_plic::Source;

/// The largest step that an input comes before: ten decimal digits.
const LAST_STEP: u64 = 9999999999;

/// Reads the number of a step: one to ten decimal digits.
#[tactic(auto, unfolding(crate::specs::Timed::step_of))]
pub fn step(word: &[u8]) -> Option<u64>
    ensures { result ≡ step_of word.now }
{
    if word.len() > 10 {
        return None;
    }
    decimal(LAST_STEP, word)
}

/// Reads an interrupt source: a decimal number from 1 to 31.
pub fn source(word: &[u8]) -> Option<Source>
    ensures { result ≡ source_of word.now }
{
    let number = decimal(31, word)?;
    Source::new(number as u8)
}

/// The words of the levels: low and high.
static LEVELS: [(&str, bool); 2] = [("0", false), ("1", true)];

/// Reads a level: `0` for low, `1` for high.
pub fn level(word: &[u8]) -> Option<bool>
    ensures { result ≡ level_of word.now }
{
    look_up(&LEVELS, word)
}
