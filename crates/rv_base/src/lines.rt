//! The lines of a text.
ghost use Rattle.std.specs.Prelude.{◌≡◌, ◌<◌, ◌≤◌, ◌∷◌, ◌==◌, length};
ghost use Rattle.std.specs.List.{position};
ghost use Rattle.std.specs.Iterator.{YieldsFirstRef, item_count};
ghost use Rattle.std.specs.Str.Lines.{strip_carriage_return};
ghost use Rattle.rv_base.specs.Lines.{lines};

use std::marker::Model;

/// Returns the index of the first LF.
fn line_feed(text: &[u8]) -> Option<usize>
    ensures { result ≡ position (λ b. b == 10) text.now }
{
    text.iter().position(|b| *b == b'\n')
}

/// Returns the line without a CR at its end.
fn without_return(line: &[u8]) -> &[u8]
    ensures { result.now ≡ strip_carriage_return line.now }
{
    if !line.is_empty() && line[line.len() - 1] == b'\r' {
        &line[..line.len() - 1]
    } else {
        line
    }
}

/// Splits a text after its first line: the line, without its end, and what follows.
#[tactic(auto, using(crate::proofs::LineSplitting::lines_feed, crate::proofs::LineSplitting::lines_last))]
fn first_line(text: &[u8]) -> (&[u8], &[u8])
    requires { 0 < length text.now }
    ensures { lines text.now ≡ result.0.now ∷ lines result.1.now }
{
    match line_feed(text) {
        Some(n) => {
            let (line, rest) = text.split_at(n);
            (without_return(line), rest.split_at(1).1)
        }
        None => (without_return(text), text.split_at(text.len()).1),
    }
}

/// An iterator over the lines of a text, each without its LF and without a CR before it; seen as the lines
/// that are left.
#[derive(Drop)]
pub struct Cut<'a> {
    rest: &'a [u8],
}

impl<'a> Model for Cut<'a> {
    ghost use Rattle.std.specs.Prelude.{List, ℕ};
    ghost use Rattle.rv_base.specs.Lines.{lines};

    ghost Value = { List (List ℕ) };

    ghost view = { λ cut. lines cut.rest.now };
}

impl<'a> Iterator for Cut<'a> {
    type Item = &'a [u8];

    ghost next_gives = { YieldsFirstRef (λ cut. cut) };

    ghost remaining = { item_count (λ cut. cut) };

    #[tactic(auto, using(crate::proofs::LineSplitting::lines_end))]
    fn next(&mut self) -> Option<&'a [u8]> {
        if self.rest.is_empty() {
            return None;
        }
        let (line, rest) = first_line(self.rest);
        self.rest = rest;
        Some(line)
    }
}

/// Returns the lines of a text, of which there are no more than it has bytes.
///
/// The last line needs no LF. A loop `for line in cut_lines(text)` sees the lines left as `l.line-iterator`:
/// its invariant names `length l.line-iterator`, or `lines text ≡ done ++ l.line-iterator`, and each turn
/// takes one off by `steps`.
#[tactic(auto, using(crate::proofs::LineSplitting::lines_length))]
pub fn cut_lines(text: &[u8]) -> Cut<'_>
    ensures cut { result ≡ lines text.now }
    ensures within { length result ≤ length text.now }
{
    Cut { rest: text }
}
