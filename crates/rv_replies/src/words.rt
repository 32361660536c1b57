//! Words and bytes as digits.
ghost use Rattle.std.specs.Prelude.{◌≡◌, ◌++◌, OnOk};
ghost use Rattle.rv_replies.specs.Texts.{digits, word_text};

use rv_base::{NoMemory, byte_digits};

/// Appends bytes, two digits each.
///
/// # Errors
///
/// `NoMemory` if memory runs out.
pub fn append_hex_text(out: &mut Vec<u8>, bytes: &[u8]) -> Result<(), NoMemory>
    ensures { OnOk result (out.new.items ≡ out.old.items ++ digits bytes.now) }
{
    for byte in bytes {
        out.extend_from_slice(&byte_digits(*byte))?;
    }
    Ok(())
}

/// Appends a word, the low byte first.
#[tactic(auto, unfolding(crate::specs::Texts::word_text))]
pub(crate) fn append_word(out: &mut Vec<u8>, word: u32) -> Result<(), NoMemory>
    ensures { OnOk result (out.new.items ≡ out.old.items ++ word_text word) }
{
    let bytes = [
        (word % 256) as u8,
        (word / 256 % 256) as u8,
        (word / 65536 % 256) as u8,
        (word / 16777216) as u8,
    ];
    append_hex_text(out, &bytes)
}
