//! Tokens that can't stand where they stand, and bytes at which no token begins (E3).
use crate::foreign::FOREIGN;
use crate::operands::{NO_WORD, is_word};
use crate::spot::{
    Spot, begins_with_digit, count_of, first_byte, has_digits_alone, is_in_name, last_byte, run_of,
    statement_in, two_words,
};
use crate::text::{Words, in_words};
use rv_base::look_up;

/// Returns what is said where no token begins at a quote.
fn string(spot: Spot) -> Words {
    let mut escaped = false;
    for byte in spot.after {
        match *byte {
            _ if escaped => match *byte {
                b'n' | b't' | b'r' | b'b' | b'f' | b'\\' | b'"' | b'\'' | b'x' | b'0'..=b'7' => {
                    escaped = false;
                }
                _ => {
                    return in_words(
                        "a string has an escape that isn't in the language",
                        "the escapes are \\n \\t \\r \\b \\f \\\\ \\\" \\', \\x with two hexadecimal digits, and \\ with octal digits",
                    );
                }
            },
            b'\\' => escaped = true,
            b'"' => {
                return in_words(
                    "a string has a byte or an escape that isn't allowed in it",
                    "write \\x and exactly two hexadecimal digits for such a byte",
                );
            }
            _ => {}
        }
    }
    in_words(
        "the string isn't closed",
        "end it with `\"` on the same line",
    )
}

/// Returns what is said where no token begins at a single quote.
fn character(spot: Spot) -> Words {
    match count_of(spot.after, b'\'') {
        0 => in_words(
            "the character isn't closed",
            "write one character between two single quotes, as in `'A'`",
        ),
        _ => in_words(
            "between single quotes there has to be one printing ASCII character, or one escape",
            "write a string as `\"abc\"`, and a quote as `'\\''`",
        ),
    }
}

/// Returns what is said of digits that are no number.
fn digits(run: &[u8]) -> Words {
    let is_decimal = count_of(run, b'8') > 0 || count_of(run, b'9') > 0;
    if is_decimal && run.first() == Some(&b'0') {
        return in_words(
            "`^` begins with 0, so it is octal, and has a digit above 7",
            "leave out the 0 at its beginning",
        );
    }
    in_words(
        "`^` is above 4294967295, the greatest number",
        "write a number of at most 32 bits",
    )
}

/// Returns the letter that says the base of a number, which stands behind a 0; or 0 if there is none.
fn base_letter(run: &[u8]) -> u8 {
    if run.first() == Some(&b'0') {
        return run.get(1).copied().unwrap_or(0);
    }
    0
}

/// Returns what is said of a number that is none.
fn number(run: &[u8]) -> Words {
    if has_digits_alone(run) {
        return digits(run);
    }
    match (base_letter(run), last_byte(run)) {
        (b'x' | b'X', _) => in_words(
            "`^` is no hexadecimal number of at most 32 bits",
            "write `0x` and one to eight of 0 to 9 and a to f",
        ),
        (b'b' | b'B', _) => in_words(
            "`^` is no binary number of at most 32 bits",
            "write `0b` and the digits 0 and 1",
        ),
        (b'o' | b'O', _) => in_words(
            "`^` is no number",
            "write an octal number with `0` in front, as in `017`",
        ),
        (_, b'h' | b'H') => in_words(
            "`^` is no number",
            "write a hexadecimal number with `0x` in front",
        ),
        (_, b'b' | b'B' | b'f' | b'F') => in_words(
            "`^` is neither a number nor a reference to a local label, which has one to four digits",
            "write `1b` or `1f`",
        ),
        _ if count_of(run, b'_') > 0 => in_words(
            "`^` is no number: numbers have no `_`",
            "write the digits alone",
        ),
        _ if count_of(run, b'.') > 0 => in_words(
            "`^` is no number: there are only whole numbers",
            "write a whole number",
        ),
        _ => in_words(
            "`^` is neither a number nor a name",
            "begin a name with a letter, `_`, `.` or `$`",
        ),
    }
}

/// Whether a bracket is open at the end of a text.
fn is_open(before: &[u8]) -> bool {
    count_of(before, b'(') > count_of(before, b')')
}

/// The words where something stands between the brackets around a register.
const BRACKETS: (&str, &str) = (
    "between these brackets there can be only a register",
    "expressions have no brackets: write the value itself, as in `4(sp)` or `li a0,3`",
);

/// Returns what is said of a name, a number or a string that can't stand there.
fn operand(spot: Spot) -> Words {
    let last = last_byte(spot.before);
    let next = first_byte(spot.after);
    if next == b':' {
        return in_words(
            "`^` is no label: a local label is one to four digits without a leading zero",
            "write `1:`, or a name and a colon",
        );
    }
    match last {
        0 | b':' => in_words(
            "a statement can't begin with `^`",
            "begin it with an instruction or a directive",
        ),
        b'(' if next == 0 || next == b'#' => in_words(
            "the bracket isn't closed after `^`",
            "write `)` after it",
        ),
        b'(' => in_words(BRACKETS.0, BRACKETS.1),
        b'=' | b'+' | b'-' => in_words("`^` can't stand here", ""),
        _ if spot.before.ends_with(b"%hi") || spot.before.ends_with(b"%lo") => {
            in_words(
                "a bracket is missing before `^`",
                "write `%hi(^)` or `%lo(^)`",
            )
        }
        _ if is_in_name(last) || last == b')' || last == b'"' || last == b'\'' => in_words(
            "a comma is missing before `^`",
            "write commas between operands, and each statement on a line of its own",
        ),
        _ => in_words(
            "`^` can't stand here",
            "write commas between operands, and each statement on a line of its own",
        ),
    }
}

/// Returns what is said of a comma that can't stand there, or with nothing after it.
fn comma(spot: Spot) -> Words {
    match first_byte(spot.after) {
        0 => in_words(
            "an operand is missing after the comma",
            "write it, or leave out the comma",
        ),
        b'#' => in_words(
            "an operand is missing after the comma, since `#` begins a comment",
            "write a number without `#`, as in `li a0,5`",
        ),
        _ if is_open(spot.before) => in_words(BRACKETS.0, BRACKETS.1),
        _ => in_words(
            "an operand is missing before this comma",
            "write it, or leave out the comma",
        ),
    }
}

/// Returns what is said of a sign that can't stand there, or with nothing after it.
fn sign(spot: Spot) -> Words {
    match last_byte(spot.before) {
        0 => in_words("a statement can't begin with `^`", "begin a comment by `#`"),
        b')' => in_words(
            "after a closing bracket there can be only a comma",
            "write the offset in front of the bracket, as in `4(sp)`",
        ),
        _ if first_byte(spot.after) == 0 => in_words(
            "a value is missing after `^`",
            "write it, or leave out the sign",
        ),
        b'+' | b'-' => in_words(
            "this `^` is one sign too many",
            "write at most one sign before a value, and two between values",
        ),
        _ => in_words(BRACKETS.0, BRACKETS.1),
    }
}

/// Returns what is said of a closing bracket.
fn close(spot: Spot) -> Words {
    if !is_open(spot.before) {
        return in_words(
            "this bracket closes nothing",
            "leave it out, or write the opening one",
        );
    }
    match last_byte(spot.before) {
        b'(' => in_words(
            "between the brackets a register is missing",
            "write it, as in `(sp)`",
        ),
        _ => in_words(BRACKETS.0, BRACKETS.1),
    }
}

/// Returns what is said of an opening bracket.
fn open(spot: Spot) -> Words {
    match first_byte(spot.after) {
        0 => in_words(
            "after the bracket a register is missing",
            "write it and `)`, as in `(sp)`",
        ),
        _ => in_words("a bracket can't stand here", BRACKETS.1),
    }
}

/// Returns what is said of a colon.
fn colon(spot: Spot) -> Words {
    match last_byte(spot.before) {
        0 | b':' => in_words(
            "before this colon a label is missing",
            "write its name, or leave out the colon",
        ),
        _ => in_words(
            "before the colon there is no single name, so this is no label",
            "make names of letters, digits, `_`, `.` and `$`, as in `my_label:`",
        ),
    }
}

/// Returns what is said of the percent sign.
fn percent(spot: Spot) -> Words {
    let run = run_of(spot.rest.split_at(1.min(spot.rest.len())).1);
    match run {
        b"hi" | b"lo" => in_words(
            "`%hi` and `%lo` can't stand here, or without brackets",
            "write them around the whole value, as in `%lo(x + 4)`",
        ),
        [b'a'..=b'z' | b'_', ..] => in_words(
            "of the names with `%` there are only `%hi` and `%lo`",
            "load an address by `la`",
        ),
        _ => in_words(OPERATOR.0, OPERATOR.1),
    }
}

/// The words for an operator.
const OPERATOR: (&str, &str) = (
    "`^` is no operator here: expressions have only `+` and `-`",
    "write the value itself, or define a name for it by `.equ`",
);

/// Returns what is said where a comma seems to be missing, but the word of the statement is none: a label without its
/// colon, or a word of another assembler.
fn no_statement<'a>(spot: Spot<'a>) -> Option<(Words, &'a [u8])> {
    let (word, next) = two_words(statement_in(spot.before));
    if word.is_empty() || is_word(word) || !is_in_name(last_byte(spot.before)) {
        return None;
    }
    if let Some(advice) = look_up(&FOREIGN, word) {
        return Some((in_words(NO_WORD, advice), word));
    }
    if is_word(next) {
        let said = in_words(
            "`^` is no instruction",
            "if it is a label write `^:`, with a colon",
        );
        return Some((said, word));
    }
    None
}

/// Returns what is said of a byte or a token that can't stand there, with the piece that is meant.
pub(crate) fn syntax<'a>(spot: Spot<'a>) -> (Words, &'a [u8]) {
    if let Some(said) = no_statement(spot) {
        return said;
    }
    let run = run_of(spot.rest);
    if run.len() != spot.piece.len() && begins_with_digit(run) {
        return (number(run), run);
    }
    let first = spot.rest.first().copied().unwrap_or(0);
    let said = match first {
        b'"' if spot.piece.len() == 1 => string(spot),
        b'\'' if spot.piece.len() == 1 => character(spot),
        b';' => in_words(
            "`;` doesn't separate statements, and begins no comment",
            "write each statement on a line of its own, and `#` before a comment",
        ),
        b'/' if first_byte(spot.after) == b'*' => {
            in_words(
                "`/*` begins no comment",
                "begin a comment by `#`: it runs to the end of the line",
            )
        }
        b'=' => in_words(
            "`=` defines nothing",
            "define a constant by `.equ NAME,VALUE`",
        ),
        b'*' | b'/' | b'|' | b'@' if last_byte(spot.before) == 0 => {
            in_words("`^` begins no comment", "begin a comment by `#`")
        }
        b'*' | b'/' | b'|' | b'&' | b'^' | b'~' | b'!' | b'<' | b'>' => in_words(
            OPERATOR.0, OPERATOR.1,
        ),
        b'%' => percent(spot),
        b'[' | b']' | b'{' | b'}' => in_words(
            "`^` is no bracket of the language",
            "write what a register points at as `(sp)` or `4(sp)`",
        ),
        b'\\' => in_words(
            "`^` doesn't continue a line",
            "write the whole statement on one line",
        ),
        b'@' => in_words(
            "names have no `@`, and it begins no comment",
            "begin a comment by `#`",
        ),
        b',' => comma(spot),
        b'+' | b'-' => sign(spot),
        b'(' => open(spot),
        b')' => close(spot),
        b':' => colon(spot),
        b'"' | b'\'' | b'_' | b'.' | b'$' => operand(spot),
        _ if first.is_ascii_alphanumeric() => operand(spot),
        _ => in_words("`^` has no meaning here", "begin a comment by `#`"),
    };
    (said, spot.piece)
}
