//! The numbers of a packet.
ghost use Rattle.std.specs.Prelude.{◌≡◌, ◌==◌, ◌<◌, IfSome, length};
ghost use Rattle.std.specs.List.{position};
ghost use Rattle.rv_requests.specs.Numbers.{before, behind, number, pair, triple};

use rv_base::number_in;

/// Returns the index of the first byte of this value.
fn first_index(text: &[u8], byte: u8) -> Option<usize>
    ensures value { result ≡ position (λ b. b == byte) text.now }
    ensures below { IfSome result (λ n. n < length text.now) }
{
    text.iter().position(|b| *b == byte)
}

/// Returns what comes before the first byte of this value, or all where there is none.
#[tactic(auto, unfolding(crate::specs::Numbers::before))]
pub(crate) fn before(text: &[u8], byte: u8) -> &[u8]
    ensures { result.now ≡ before byte text.now }
{
    match first_index(text, byte) {
        Some(index) => text.split_at(index).0,
        None => text,
    }
}

/// Returns what comes after the first byte of this value, or nothing where there is none.
#[tactic(auto, unfolding(crate::specs::Numbers::behind))]
pub(crate) fn behind(text: &[u8], byte: u8) -> &[u8]
    ensures { result.now ≡ behind byte text.now }
{
    match first_index(text, byte) {
        Some(index) => text.split_at(index + 1).1,
        None => text.split_at(text.len()).1,
    }
}

/// Reads a number of 32 bits in hexadecimal digits.
pub(crate) fn number(digits: &[u8]) -> Option<u32>
    ensures { result ≡ number digits.now }
{
    let number = number_in(16, u64::from(u32::MAX), digits)?;
    Some(number as u32)
}

/// Reads two numbers with a comma between them.
#[tactic(auto, unfolding(crate::specs::Numbers::pair))]
pub(crate) fn pair(text: &[u8]) -> Option<(u32, u32)>
    ensures { result ≡ pair text.now }
{
    Some((number(before(text, b','))?, number(behind(text, b','))?))
}

/// Reads three numbers with commas between them.
#[tactic(auto, unfolding(crate::specs::Numbers::triple))]
pub(crate) fn triple(text: &[u8]) -> Option<(u32, u32, u32)>
    ensures { result ≡ triple text.now }
{
    let first = number(before(text, b','))?;
    let (second, third) = pair(behind(text, b','))?;
    Some((first, second, third))
}
