//! How much of memory is shown, and how.
ghost use Rattle.std.specs.Prelude.{◌≡◌, ◌≤◌, IfSome};
ghost use Rattle.rv_base.specs.Tables.{lookup};
ghost use Rattle.rv_base.specs.Words.{words};
ghost use Rattle.rv_answers.specs.Memory.{extent};
ghost use Rattle.rv_answers.specs.Support.Parts.{format_of, formats};

use rv_base::{decimal, first_word, has_word, look_up};

/// The most bytes that are shown.
const MOST_BYTES: u64 = 4096;

/// How the bytes of memory are shown.
#[derive(Clone, Copy)]
pub enum Format {
    Bytes,
    Words,
    Text,
}

/// How many bytes or words are shown, and how.
#[derive(Clone, Copy)]
pub struct Extent {
    pub count: u64,
    pub format: Format,
}

/// The words for how memory is shown, with how many bytes or words are shown where no number is given.
static FORMATS: [(&str, (Format, u64)); 3] = [
    ("w", (Format::Words, 16)),
    ("t", (Format::Text, 64)),
    ("b", (Format::Bytes, 64)),
];

/// Returns how memory is shown, by its word, and how many bytes or words where no number is given.
#[tactic(auto, unfolding(crate::specs::Support::Parts::formats), using(crate::proofs::Formats::few))]
fn format_named(word: &[u8]) -> Option<(Format, u64)>
    ensures value { result ≡ lookup word.now formats }
    ensures most { IfSome result (λ f. f.1 ≤ 64) }
{
    look_up(&FORMATS, word)
}

/// Reads how memory is shown, by the only word of a text.
fn read_format(text: &[u8]) -> Option<(Format, u64)>
    ensures value { result ≡ format_of (words text.now) }
    ensures most { IfSome result (λ f. f.1 ≤ 64) }
{
    let Some((word, rest)) = first_word(text) else {
        return Some((Format::Bytes, 64));
    };
    if has_word(rest) {
        return None;
    }
    format_named(word)
}

/// Reads how many bytes or words are shown, and how.
#[tactic(auto, using(crate::proofs::Formats::extent_told))]
pub fn read_extent(text: &[u8]) -> Option<Extent>
    ensures value { result ≡ extent (words text.now) }
    ensures most { IfSome result (λ e. e.count ≤ 4096) }
{
    if let Some((word, rest)) = first_word(text)
        && let Some(count) = decimal(MOST_BYTES, word)
    {
        let (format, _) = read_format(rest)?;
        return Some(Extent { count, format });
    }
    let (format, count) = read_format(text)?;
    Some(Extent { count, format })
}
