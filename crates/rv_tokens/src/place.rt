//! Where the tokens of a line stand.
ghost use Rattle.std.specs.Prelude.{◌≡◌, ◌+◌, ◌≤◌, ◌<◌, length, slice_get, IfSome};
ghost use Rattle.rv_tokens.specs.Support.Cuts.{places, places_after};

use crate::scan::{front, is_comment};
use rv_base::is_blank;

/// The place of a token in its line.
#[derive(Clone, Copy, PartialEq, Eq, Debug)]
pub struct Place {
    /// The number of bytes before the token.
    pub column: usize,
    /// The number of bytes of the token.
    pub len: usize,
}

/// Returns the place of the token with an index in the rest of a line that has `total` bytes.
#[tactic(auto, unfolding(crate::specs::Support::Cuts::places_after), using(crate::proofs::Cutting::place_steps))]
fn place_in(total: usize, rest: &[u8], index: usize) -> Option<Place>
    requires { length rest.now ≤ total }
    ensures value { result ≡ slice_get (places_after total rest.now 0) index }
    ensures within { IfSome result (λ p. p.column + p.len ≤ total) }
{
    let [first, others @ ..] = rest else {
        return None;
    };
    if is_blank(*first) {
        return place_in(total, others, index);
    }
    if is_comment(rest) {
        return None;
    }
    let (_, len) = front(rest)?;
    if index == 0 {
        let column = total - rest.len();
        return Some(Place { column, len });
    }
    place_in(total, rest.split_at(len).1, index - 1)
}

/// Returns the place of the token with an index, counted from 0, in a line without its line end; `None` if
/// fewer tokens can be cut from the line.
pub fn place_of(line: &[u8], index: usize) -> Option<Place>
    ensures value { result ≡ slice_get (places line.now) index }
    ensures within { IfSome result (λ p. p.column + p.len ≤ length line.now) }
{
    place_in(line.len(), line, index)
}

/// Returns the column of the first byte at which no token begins, in the rest of a line that has `total`
/// bytes.
#[tactic(auto, using(crate::proofs::Longest::longest_found))]
fn stuck_in(total: usize, rest: &[u8]) -> Option<usize>
    requires { length rest.now ≤ total }
    ensures { IfSome result (λ column. column < total) }
{
    let [first, others @ ..] = rest else {
        return None;
    };
    if is_blank(*first) {
        return stuck_in(total, others);
    }
    if is_comment(rest) {
        return None;
    }
    match front(rest) {
        Some((_, len)) => stuck_in(total, rest.split_at(len).1),
        None => Some(total - rest.len()),
    }
}

/// Returns the number of bytes before the first byte of a line at which no token begins, if there is one.
pub fn stuck_at(line: &[u8]) -> Option<usize>
    ensures { IfSome result (λ column. column < length line.now) }
{
    stuck_in(line.len(), line)
}
