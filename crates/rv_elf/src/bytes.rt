//! Numbers as bytes, the lowest first.
ghost use Rattle.std.specs.Prelude.{◌≡◌, ◌++◌, OnOk};
ghost use Rattle.rv_elf.specs.Support.Written.{halves, words};

use rv_base::NoMemory;

/// Appends numbers of 16 bits.
pub fn append_halves(out: &mut Vec<u8>, numbers: &[u16]) -> Result<(), NoMemory>
    ensures { OnOk result (out.new.items ≡ out.old.items ++ halves numbers.now) }
{
    for half in numbers {
        out.extend_from_slice(&half.to_le_bytes())?;
    }
    Ok(())
}

/// Appends numbers of 32 bits.
pub fn append_words(out: &mut Vec<u8>, numbers: &[u32]) -> Result<(), NoMemory>
    ensures { OnOk result (out.new.items ≡ out.old.items ++ words numbers.now) }
{
    for word in numbers {
        out.extend_from_slice(&word.to_le_bytes())?;
    }
    Ok(())
}
