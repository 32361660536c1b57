//! Tokens.
use crate::Name;
use crate::literal::first_byte;
use std::alloc::AllocError;
use std::marker::Model;

/// The direction in which a reference looks for the nearest definition of its local label.
#[derive(Clone, Copy)]
pub enum Direction {
    /// `b`, as in `1b`: on the same line or an earlier one.
    Backward,
    /// `f`, as in `1f`: on a later line.
    Forward,
}

/// A string. Its view is the bytes that it stands for.
#[derive(Drop)]
pub struct Text<'a> {
    /// The text between the quotes, with its escapes.
    spelling: &'a [u8],
}

impl<'a> Model for Text<'a> {
    ghost use Rattle.std.specs.Prelude.{List, [], ℕ, IsTrue, is_some};
    ghost use Rattle.std.specs.Option.{unwrap_or};
    ghost use Rattle.rv_tokens.specs.Literals.{bytes_after};

    ghost Value = { List ℕ };

    ghost view = { λ text. unwrap_or (bytes_after text.spelling.now 0) [] };

    ghost invariant = { λ text. IsTrue (is_some (bytes_after text.spelling.now 0)) };
}

impl<'a> Text<'a> {
    ghost use Rattle.std.specs.Prelude.{◌≡◌, ◌++◌, length, IsTrue, is_some, Some, OnOk};
    ghost use Rattle.rv_tokens.specs.Support.Partial.{string_bytes};

    /// Makes a string of the text between its quotes.
    pub(crate) fn new(spelling: &'a [u8]) -> Self
        requires { IsTrue (is_some (string_bytes spelling.now)) }
        ensures { string_bytes spelling.now ≡ Some result }
    {
        Text { spelling }
    }

    /// Returns a copy of the string: a struct with a `Model` and a lifetime can't be `Copy`.
    pub fn again(&self) -> Text<'a>
        ensures { result ≡ self.now }
    {
        Text {
            spelling: self.spelling,
        }
    }

    /// Returns the number of the string's bytes.
    #[tactic(auto, using(crate::proofs::Escapes::text_steps))]
    pub fn len(&self) -> usize
        ensures { result ≡ length self.now }
    {
        let mut count = 0;
        let mut rest = self.spelling;
        while let Some((_, n)) = first_byte(rest) {
            count += 1;
            rest = rest.split_at(n).1;
        }
        count
    }

    /// Appends the bytes of the string.
    #[tactic(auto, using(crate::proofs::Escapes::text_steps, std::proofs::lemmas::Grind::common_steps))]
    pub fn append_to(&self, out: &mut Vec<u8>) -> Result<(), AllocError>
        ensures { OnOk result (out.new.items ≡ out.old.items ++ self.now) }
    {
        let mut rest = self.spelling;
        while let Some((b, n)) = first_byte(rest) {
            out.push(b)?;
            rest = rest.split_at(n).1;
        }
        Ok(())
    }
}

/// A token of a line: the longest at its place. docs/ASSEMBLER.md says how each is spelled.
#[derive(Drop)]
pub enum Token<'a> {
    /// A letter, `_`, `.` or `$`, followed by letters, digits, `_`, `.` and `$`.
    Name(Name<'a>),
    /// A decimal number of one to four digits without a leading zero. Followed by `:` it is a local label.
    Digits(u16),
    /// Any other number.
    Number(u32),
    /// A reference to a local label with a number from 0 to 9999.
    Local { number: u16, direction: Direction },
    /// A character: the byte that it stands for.
    Character(u8),
    /// A string: the bytes that it stands for.
    Text(Text<'a>),
    /// `,`
    Comma,
    /// `(`
    Open,
    /// `)`
    Close,
    /// `+`
    Plus,
    /// `-`
    Minus,
    /// `:`
    Colon,
    /// `@`
    At,
    /// `%hi`
    High,
    /// `%lo`
    Low,
}
