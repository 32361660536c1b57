//! Texts that others wrote, as they are shown in a terminal, and numbers of things.
use std::fmt::{self, Display, Formatter};

/// A text that others wrote: a byte that may drive a terminal, and one that is in no character, is told by its digits.
#[derive(Clone, Copy)]
pub struct Shown<'a>(pub &'a [u8]);

/// Writes bytes by their digits.
fn write_digits<W: fmt::Write>(bytes: &[u8], f: &mut Formatter<W>) -> fmt::Result {
    for byte in bytes {
        write!(f, "\\x{byte:02x}")?;
    }
    Ok(())
}

/// Writes the characters of a text, and those that may drive a terminal by their digits.
fn write_characters<W: fmt::Write>(text: &str, f: &mut Formatter<W>) -> fmt::Result {
    for character in text.chars() {
        if character.is_control() && character != '\t' {
            write_digits(character.encode_utf8(&mut [0; 4]).as_bytes(), f)?;
        } else {
            f.write_char(character)?;
        }
    }
    Ok(())
}

impl Display for Shown<'_> {
    fn fmt<W: fmt::Write>(&self, f: &mut Formatter<W>) -> fmt::Result {
        for chunk in self.0.utf8_chunks() {
            write_characters(chunk.valid(), f)?;
            write_digits(chunk.invalid(), f)?;
        }
        Ok(())
    }
}

/// A number of things of a name, as `1 step`, `2 steps` and `0 watches`.
#[derive(Clone, Copy)]
pub struct Count(pub u64, pub &'static str);

impl Display for Count {
    fn fmt<W: fmt::Write>(&self, f: &mut Formatter<W>) -> fmt::Result {
        let Count(number, name) = *self;
        let ending = match number {
            1 => "",
            _ if name.ends_with("ch") => "es",
            _ => "s",
        };
        write!(f, "{number} {name}{ending}")
    }
}
