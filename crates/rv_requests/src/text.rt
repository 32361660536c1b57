//! Texts that a packet has as digits.
ghost use Rattle.std.specs.Prelude.{◌≡◌, IfOk};
ghost use Rattle.std.specs.Option.{option_map};
ghost use Rattle.rv_requests.specs.Numbers.{bytes_of};

use rv_base::{NoMemory, hex_byte};
use rv_packets::Contents;
use std::alloc::Global;

/// Reads bytes of two hexadecimal digits each. None where there are other bytes or an odd number of them.
#[tactic(auto, using(crate::proofs::Decoding::decoding_steps))]
pub(crate) fn read_text(alloc: Global, digits: &[u8]) -> Result<Option<Contents>, NoMemory>
    ensures { IfOk result (λ t. t ≡ bytes_of digits.now) }
{
    let mut bytes = Vec::new(alloc);
    let mut left = digits;
    while left.len() >= 2 {
        let (pair, rest) = left.split_at(2);
        let Some(byte) = hex_byte(pair) else {
            return Ok(None);
        };
        bytes.extend_from_slice(&[byte])?;
        left = rest;
    }
    if left.is_empty() {
        Ok(Some(Contents::of(bytes)))
    } else {
        Ok(None)
    }
}
