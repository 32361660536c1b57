//! Packets as they are sent.
ghost use Rattle.std.specs.Prelude.{◌≡◌, ◌++◌, ◌%◌, IfOk, OnOk};
ghost use Rattle.std.specs.List.{sum};
ghost use Rattle.rv_packets.specs.Items.{escaped, framed};

use rv_base::{NoMemory, byte_digits};
use std::alloc::Global;

/// Returns contents in which no byte has another meaning.
fn escape(alloc: Global, contents: &[u8]) -> Result<Vec<u8>, NoMemory>
    ensures { IfOk result (λ v. v.items ≡ escaped contents.now) }
{
    let mut out = Vec::new(alloc);
    for byte in contents {
        match *byte {
            b'#' | b'$' | b'}' | b'*' => out.extend_from_slice(&[b'}', *byte ^ 0x20])?,
            other => out.extend_from_slice(&[other])?,
        }
    }
    Ok(out)
}

/// Returns the sum of bytes, less the greatest multiple of 256 in it.
fn sum_of(bytes: &[u8]) -> u8
    ensures { result ≡ sum bytes.now % 256 }
{
    let mut sum: u8 = 0;
    for byte in bytes {
        sum = sum.wrapping_add(*byte);
    }
    sum
}

/// Appends a packet with these contents.
///
/// # Errors
///
/// `NoMemory` if memory runs out; a beginning of the packet may be appended then.
pub fn append_packet(alloc: Global, contents: &[u8], out: &mut Vec<u8>) -> Result<(), NoMemory>
    ensures { OnOk result (out.new.items ≡ out.old.items ++ framed contents.now) }
{
    let escaped = escape(alloc, contents)?;
    out.extend_from_slice(b"$")?;
    out.extend_from_slice(&escaped)?;
    out.extend_from_slice(b"#")?;
    out.extend_from_slice(&byte_digits(sum_of(&escaped)))?;
    Ok(())
}
