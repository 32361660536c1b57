//! Bytes that no token has (E1).
use crate::spot::Spot;
use crate::text::{Words, in_words};

/// What is said of a quotation mark of typography.
const QUOTATION_MARK: &str = "`^` is a typographic quotation mark";

/// Characters that look like others or like nothing.
static CHARACTERS: [(&str, &str, &str); 21] = [
    (
        "\u{feff}",
        "a byte order mark stands here, which no editor shows",
        "save the file as UTF-8 without a byte order mark",
    ),
    (
        "\u{a0}",
        "a no-break space stands here, which only looks like a space",
        "replace it by a space",
    ),
    (
        "\u{200b}",
        "a space of no width stands here, which no editor shows",
        "delete it",
    ),
    (
        "\u{202f}",
        "a narrow no-break space stands here, which only looks like a space",
        "replace it by a space",
    ),
    (
        "\u{3000}",
        "a wide space stands here, which only looks like a space",
        "replace it by a space",
    ),
    ("\u{201c}", QUOTATION_MARK, "write `\"`"),
    ("\u{201d}", QUOTATION_MARK, "write `\"`"),
    ("\u{201e}", QUOTATION_MARK, "write `\"`"),
    ("\u{ab}", QUOTATION_MARK, "write `\"`"),
    ("\u{bb}", QUOTATION_MARK, "write `\"`"),
    ("\u{2018}", QUOTATION_MARK, "write `'`"),
    ("\u{2019}", QUOTATION_MARK, "write `'`"),
    ("\u{b4}", "`^` is an accent", "write `'`"),
    ("\u{2013}", "`^` is a dash", "write `-` for a minus sign"),
    ("\u{2014}", "`^` is a dash", "write `-` for a minus sign"),
    (
        "\u{2212}",
        "`^` is a minus sign of another alphabet",
        "write `-`",
    ),
    (
        "\u{2010}",
        "`^` is a hyphen of another alphabet",
        "write `-`",
    ),
    (
        "\u{2026}",
        "`^` is three dots in one character",
        "write what is left out",
    ),
    ("\u{ff0c}", "`^` is a wide comma", "write `,`"),
    ("\u{ff1a}", "`^` is a wide colon", "write `:`"),
    (
        "\u{ff1b}",
        "`^` is a wide semicolon",
        "write `#` before a comment, and each statement on a line of its own",
    ),
];

/// Returns how many bytes the character has that begins with a byte.
fn width_of(first: u8) -> usize {
    match first {
        0xc0..=0xdf => 2,
        0xe0..=0xef => 3,
        0xf0..=0xff => 4,
        _ => 1,
    }
}

/// Returns what is said of a byte, with the character that it begins.
pub(crate) fn bad_byte<'a>(spot: Spot<'a>) -> (Words, &'a [u8]) {
    let [first, ..] = spot.rest else {
        return (in_words("a byte can't stand here", ""), b"");
    };
    let character = spot.rest.split_at(width_of(*first).min(spot.rest.len())).0;
    for row in &CHARACTERS {
        if row.0.as_bytes() == character {
            return (in_words(row.1, row.2), character);
        }
    }
    let said = match *first {
        0 => in_words(
            "a zero byte stands here",
            "save the file as UTF-8: in UTF-16 every other byte is zero",
        ),
        0xfe | 0xff => in_words("the file is in UTF-16", "save it as UTF-8"),
        b'\r' => in_words(
            "a carriage return stands in the middle of the line",
            "end lines by LF or CR LF",
        ),
        0x0c => in_words("a form feed stands here", "delete it"),
        1..=31 | 127 => in_words(
            "a control byte stands here, which no editor shows",
            "delete it",
        ),
        _ => in_words(
            "`^` isn't an ASCII character: others stand in strings and comments alone",
            "write names, numbers and signs in ASCII",
        ),
    };
    (said, character)
}
