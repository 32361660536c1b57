//! Rows of memory: bytes with their characters, and words; bytes as they stand in a string; and what the console got.
ghost use Rattle.std.specs.Prelude.{◌≡◌, []};
ghost use Rattle.rv_base.specs.Tables.{rows};
ghost use Rattle.rv_answers.specs.Memory.{escapes};

use crate::Printer;
use crate::values::{Cells, Dump};

/// The number of bytes in a row.
const ROW_BYTES: usize = 16;

/// Returns a byte as a character, or a dot.
fn character(byte: Option<u8>) -> char {
    match byte {
        Some(byte @ 32..=126) => char::from(byte),
        _ => '.',
    }
}

/// Appends a row of at most 16 bytes: the address, the bytes, with `--` where there is none, and their characters.
fn append_bytes_row(address: u32, bytes: &[Option<u8>], text: &mut Printer) {
    write!(text, "{address:08x}: ");
    for byte in bytes {
        match byte {
            Some(byte) => write!(text, "{byte:02x} "),
            None => text.say("-- "),
        }
    }
    let missing = 3 * ROW_BYTES.saturating_sub(bytes.len());
    write!(text, "{:missing$} ", "");
    for byte in bytes {
        write!(text, "{}", character(*byte));
    }
    text.end();
}

/// Appends a word of memory, or `--------` where there is none.
pub(crate) fn append_word(word: Option<u32>, text: &mut Printer) {
    match word {
        Some(word) => write!(text, "{word:08x}"),
        None => text.say("--------"),
    }
}

/// Appends a row of words: the address, and the words.
fn append_words_row(address: u32, words: &[Option<u32>], text: &mut Printer) {
    write!(text, "{address:08x}:");
    for word in words {
        text.say(" ");
        append_word(*word, text);
    }
    text.end();
}

/// What stands for a byte after a backslash.
static ESCAPES: [(&str, u8); 6] = [
    ("n", b'\n'),
    ("r", b'\r'),
    ("t", b'\t'),
    ("0", 0),
    ("\"", b'"'),
    ("\\", b'\\'),
];

/// Returns what stands for bytes after a backslash, each with its byte.
#[tactic(auto, unfolding(crate::specs::Memory::escapes))]
pub fn escapes() -> &'static [(&'static str, u8)]
    ensures { rows result.now ≡ escapes }
{
    &ESCAPES
}

/// Returns what stands for a byte after a backslash, if something does.
fn escape_of(byte: u8) -> Option<&'static str> {
    for (escape, escaped) in escapes() {
        if *escaped == byte {
            return Some(*escape);
        }
    }
    None
}

/// Appends a byte as it stands in a string of the language: by its escape, as it is, or as `\x` and its digits.
fn append_escaped(byte: u8, text: &mut Printer) {
    match (escape_of(byte), byte) {
        (Some(escape), _) => write!(text, "\\{escape}"),
        (None, 32..=126) => write!(text, "{}", char::from(byte)),
        (None, _) => write!(text, "\\x{byte:02x}"),
    }
}

/// Appends rows of 16 bytes.
fn append_bytes(mut address: u32, bytes: &[Option<u8>], text: &mut Printer) {
    for row in bytes.chunks(16) {
        append_bytes_row(address, row, text);
        address = address.wrapping_add(16);
    }
}

/// Appends rows of four words.
fn append_words(mut address: u32, words: &[Option<u32>], text: &mut Printer) {
    for row in words.chunks(4) {
        append_words_row(address, row, text);
        address = address.wrapping_add(16);
    }
}

/// Appends bytes as a string.
fn append_string(address: u32, bytes: &[u8], text: &mut Printer) {
    write!(text, "{address:08x}: \"");
    for byte in bytes {
        append_escaped(*byte, text);
    }
    text.say("\"\n");
}

/// Appends memory.
pub(crate) fn append_dump(dump: &Dump, text: &mut Printer) {
    match &dump.cells {
        Cells::Bytes(bytes) => append_bytes(dump.address, bytes.items(), text),
        Cells::Words(words) => append_words(dump.address, words.items(), text),
        Cells::Text(bytes) => append_string(dump.address, bytes.items(), text),
    }
}

/// Appends bytes of the console, each of their lines after a bar. A byte that isn't printed is escaped, and a
/// backslash ends a line that isn't ended yet.
pub(crate) fn append_console(bytes: &[u8], text: &mut Printer)
    ensures { bytes.now ≡ [] → text.new ≡ text.old }
{
    if bytes.is_empty() {
        return;
    }
    let mut is_open = false;
    for byte in bytes {
        if !is_open {
            text.say("| ");
        }
        is_open = *byte != b'\n';
        match *byte {
            b'\n' => text.end(),
            b'"' => text.say("\""),
            byte => append_escaped(byte, text),
        }
    }
    if is_open {
        text.say("\\\n");
    }
}
