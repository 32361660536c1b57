//! The places of the C source that a source was made of.
ghost use Rattle.std.specs.Prelude.{◌≡◌, ◌-◌, IfOk, length, take};
ghost use Rattle.std.specs.Char.{is_ascii_digit};
ghost use Rattle.std.specs.List.{suffix_len};
ghost use Rattle.rv_lab.specs.Marks.{is_place, marks_in};

use rv_answers::push;
use rv_asm::PlacedName;
use rv_base::NoMemory;
use std::alloc::Global;

/// Returns a name without the decimal digits at its end.
fn without_digits(name: &[u8]) -> &[u8]
    ensures { result.now ≡ take (length name.now - suffix_len is_ascii_digit name.now) name.now }
{
    match name {
        [rest @ .., b] if b.is_ascii_digit() => without_digits(rest),
        _ => name,
    }
}

/// Returns whether a label is that of a place of C: a name, a dot and decimal digits.
fn is_place(name: &[u8]) -> bool
    ensures { result ≡ is_place name.now }
{
    let stem = without_digits(name);
    stem.len() < name.len() && stem.len() > 1 && stem.ends_with(b".")
}

/// Returns the addresses of those of some labels that are of places of C.
pub(crate) fn marks_in(alloc: Global, labels: &[PlacedName]) -> Result<Vec<u32>, NoMemory>
    ensures { IfOk result (λ m. m.items ≡ marks_in labels.now) }
{
    let mut marks = Vec::new(alloc);
    for label in labels {
        if is_place(&label.name) {
            push(&mut marks, label.address)?;
        }
    }
    Ok(marks)
}
