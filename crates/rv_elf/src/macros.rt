//! The table of macros: constants by their names, which debuggers then take in expressions.
ghost use Rattle.std.specs.Prelude.{◌≡◌, ◌+◌, IfOk, OnOk, length};
ghost use Rattle.rv_elf.specs.Size.{macros_size};

use rv_base::NoMemory;
use std::alloc::Global;

/// A macro's text: its name, a space, and what stands for it.
#[derive(Drop)]
pub struct Macro {
    pub text: Vec<u8>,
}

/// Appends a macro that is known at every line, as one of a compiler's command line (DWARF 5, section 6.3.2.1).
fn append_macro(out: &mut Vec<u8>, text: &[u8]) -> Result<(), NoMemory>
    ensures { OnOk result (length out.new.items ≡ length out.old.items + length text.now + 3) }
{
    out.extend_from_slice(&[1, 0])?;
    out.extend_from_slice(text)?;
    out.extend_from_slice(&[0])?;
    Ok(())
}

/// Appends macros, each of which is known at every line.
fn append_macros(out: &mut Vec<u8>, macros: &[Macro]) -> Result<(), NoMemory>
    ensures { OnOk result (length out.new.items + 12 ≡ length out.old.items + macros_size macros.now) }
{
    for each in macros {
        append_macro(out, &each.text)?;
    }
    Ok(())
}

/// Returns the table of macros of the one source, in the form that DWARF 4 has as an extension of GNU's.
pub fn write_macros(alloc: Global, macros: &[Macro]) -> Result<Vec<u8>, NoMemory>
    ensures { IfOk result (λ t. length t.items ≡ macros_size macros.now) }
{
    let mut out = Vec::new(alloc);
    // Version 4, that an offset of four bytes follows, and this: it is that of the table of lines.
    out.extend_from_slice(&[4, 0, 2, 0, 0, 0, 0])?;
    append_macros(&mut out, macros)?;
    // The source's file begins and ends, as the table does.
    out.extend_from_slice(&[3, 0, 1, 4, 0])?;
    Ok(out)
}
