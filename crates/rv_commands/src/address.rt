//! The address of a command.
ghost use Rattle.std.specs.Prelude.{◌≡◌};
ghost use Rattle.rv_commands.specs.Addresses.{hexadecimal, address_of};

use crate::SymbolLookup;
use rv_base::{low_word, number_in};

/// The most hexadecimal digits of an address.
const MOST_DIGITS: usize = 8;

/// Reads one to eight hexadecimal digits of either case.
#[tactic(auto, unfolding(crate::specs::Addresses::hexadecimal))]
pub fn hexadecimal(digits: &[u8]) -> Option<u32>
    ensures { result ≡ hexadecimal digits.now }
{
    if digits.len() > MOST_DIGITS {
        return None;
    }
    let number = number_in(16, u64::from(u32::MAX), digits)?;
    Some(number as u32)
}

/// Reads an address: `0x` and a hexadecimal number, or a symbol.
#[tactic(auto, unfolding(crate::specs::Addresses::address_of))]
pub fn address<S: SymbolLookup>(word: &[u8], symbols: &S) -> Option<u32>
    ensures { result ≡ address_of (S.symbols symbols.now) word.now }
{
    if word.starts_with(b"0x") {
        hexadecimal(word.split_at(2).1)
    } else {
        let value = symbols.symbol(word)?;
        Some(low_word(value.cast_unsigned()))
    }
}
