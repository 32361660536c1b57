//! Records, each a line.
ghost use Rattle.std.specs.Prelude.{◌≡◌, ◌++◌, ◌+◌, ◌%◌, ◌<◌, ◌≤◌, ◌∷◌, [], IfOk, OnOk, length};
ghost use Rattle.std.specs.List.{sum};
ghost use Rattle.rv_ihex.specs.Support.Kinds.{number_of};
ghost use Rattle.rv_ihex.specs.Support.Written.{digits, fields, line_of, with_sum};

use rv_base::{NoMemory, byte_digits};
use std::alloc::Global;

/// The type of a record.
#[derive(Clone, Copy, PartialEq, Eq, Debug)]
pub enum Kind {
    /// Bytes of the image.
    Data,
    /// The end of the file.
    End,
    /// The upper half of the addresses that follow.
    Upper,
}

impl Kind {
    ghost use Rattle.std.specs.Prelude.{◌≡◌};
    ghost use Rattle.rv_ihex.specs.Support.Kinds.{number_of};

    /// Returns the number of the type.
    pub fn number(self) -> u8
        ensures { result ≡ number_of self }
    {
        match self {
            Kind::Data => 0,
            Kind::End => 1,
            Kind::Upper => 4,
        }
    }
}

/// Returns the sum of bytes, less the greatest multiple of 256 in it.
fn sum_of(bytes: &[u8]) -> u8
    ensures { result ≡ sum bytes.now % 256 }
{
    let mut sum: u8 = 0;
    for byte in bytes {
        sum = sum.wrapping_add(*byte);
    }
    sum
}

/// Returns the bytes of a record with its checksum.
fn record_bytes(alloc: Global, kind: Kind, offset: u16, content: &[u8]) -> Result<Vec<u8>, NoMemory>
    requires { length content.now < 256 }
    ensures { IfOk result (λ bs. bs.items ≡ with_sum (fields (number_of kind) offset content.now)) }
{
    let mut bytes = Vec::new(alloc);
    let head = [
        content.len() as u8,
        (offset / 256) as u8,
        (offset % 256) as u8,
        kind.number(),
    ];
    bytes.extend_from_slice(&head)?;
    bytes.extend_from_slice(content)?;
    let check = sum_of(&bytes).wrapping_neg();
    bytes.extend_from_slice(&[check])?;
    Ok(bytes)
}

/// Appends bytes in hexadecimal.
fn append_digits(out: &mut Vec<u8>, bytes: &[u8]) -> Result<(), NoMemory>
    ensures { OnOk result (out.new.items ≡ out.old.items ++ digits bytes.now) }
{
    for byte in bytes {
        out.extend_from_slice(&byte_digits(*byte))?;
    }
    Ok(())
}

/// Appends a record of fewer than 256 bytes of data, with its line end.
#[tactic(auto, unfolding(crate::specs::Support::Written::line_of))]
pub fn append_record(
    alloc: Global,
    out: &mut Vec<u8>,
    kind: Kind,
    offset: u16,
    content: &[u8],
) -> Result<(), NoMemory>
    requires { length content.now < 256 }
    ensures { OnOk result (out.new.items ≡ out.old.items ++ (line_of (number_of kind) offset content.now ++ 10 ∷ [])) }
{
    let bytes = record_bytes(alloc, kind, offset, content)?;
    out.extend_from_slice(b":")?;
    append_digits(out, &bytes)?;
    out.extend_from_slice(b"\n")?;
    Ok(())
}
