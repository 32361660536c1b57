//! Reads numbers.
ghost use Rattle.std.specs.Prelude.{◌≡◌, ◌+◌, ◌*◌, ◌<◌, ◌≤◌, Bool, IfSome};
ghost use Rattle.rv_base.specs.Numbers.{digit_value, number_in, hex_digit, hex_byte};

/// Returns the value of a digit, or 16 for any other byte.
fn digit_value(b: u8) -> u64
    ensures is { result ≡ digit_value b }
    ensures most { result ≤ 16 }
{
    u64::from(hex_digit(b).unwrap_or(16))
}

/// Returns the number that digits in a base of at most 16 stand for, the highest first, or None where there is
/// no digit, another byte, or a number above `most`. Leading zeros are allowed.
#[tactic(auto, using(crate::proofs::NumberReading::digit_steps))]
pub fn number_in(base: u64, most: u64, digits: &[u8]) -> Option<u64>
    requires low { 1 ≤ base }
    requires high { base ≤ 16 }
    requires most { most < 10000000000 }
    ensures value { result ≡ number_in base most digits.now }
    ensures below { IfSome result (λ n. n ≤ most) }
{
    if digits.is_empty() {
        return None;
    }
    let mut sum: u64 = 0;
    for b in digits {
        let digit = digit_value(*b);
        if digit >= base {
            return None;
        }
        sum = base * sum + digit;
        if sum > most {
            return None;
        }
    }
    Some(sum)
}

/// Returns the number that decimal digits stand for, or None where there is no digit, another byte, or a
/// number above `most`. Leading zeros are allowed.
pub fn decimal(most: u64, word: &[u8]) -> Option<u64>
    requires { most < 10000000000 }
    ensures value { result ≡ number_in 10 most word.now }
    ensures below { IfSome result (λ n. n ≤ most) }
{
    number_in(10, most, word)
}

/// Returns the number that a hexadecimal digit of either case stands for, or None for any other byte.
#[tactic(auto, unfolding(crate::specs::Digits::hex_digit))]
pub fn hex_digit(b: u8) -> Option<u8>
    ensures value { result ≡ hex_digit b }
    ensures below { IfSome result (λ n. n < 16) }
{
    match b {
        b'0'..=b'9' => Some(b - b'0'),
        b'A'..=b'F' => Some(b - b'A' + 10),
        b'a'..=b'f' => Some(b - b'a' + 10),
        _ => None,
    }
}

/// Returns the byte that two hexadecimal digits stand for, or None for any other word.
#[tactic(auto, unfolding(crate::specs::Numbers::hex_byte, crate::specs::Digits::hex_digit, crate::specs::Numbers::number_in))]
pub fn hex_byte(word: &[u8]) -> Option<u8>
    ensures { result ≡ hex_byte word.now }
{
    match word {
        [high, low] => Some(16 * hex_digit(*high)? + hex_digit(*low)?),
        _ => None,
    }
}
