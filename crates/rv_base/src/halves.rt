//! The two words of a number of 64 bits.
ghost use Rattle.std.specs.Prelude.{◌≡◌, ◌/◌, ◌%◌, ◌^◌};
ghost use Rattle.rv_base.specs.Halves.{with_low, with_high};

/// Returns the low 32 bits.
pub fn low_word(number: u64) -> u32
    ensures { result ≡ number % 2 ^ 32 }
{
    (number % (1 << 32)) as u32
}

/// Returns the high 32 bits.
pub fn high_word(number: u64) -> u32
    ensures { result ≡ number / 2 ^ 32 }
{
    (number >> 32) as u32
}

/// Returns the number with its low 32 bits replaced.
pub fn with_low_word(number: u64, word: u32) -> u64
    ensures { result ≡ with_low number word }
{
    (number >> 32 << 32) + u64::from(word)
}

/// Returns the number with its high 32 bits replaced.
pub fn with_high_word(number: u64, word: u32) -> u64
    ensures { result ≡ with_high number word }
{
    number % (1 << 32) + (u64::from(word) << 32)
}
