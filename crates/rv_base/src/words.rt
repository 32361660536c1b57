//! The words of a line.
ghost use Rattle.std.specs.Prelude.{◌≡◌, ◌<◌, ◌+◌, [], ◌∷◌, length, take, drop, nat_lt, IfSome, MatchOption};
ghost use Rattle.std.specs.List.{position};
ghost use Rattle.rv_base.specs.Words.{is_blank, begins_comment, words};

/// Whether a byte is a space or a tab.
pub fn is_blank(byte: u8) -> bool
    ensures { result ≡ is_blank byte }
{
    byte == b' ' || byte == b'\t'
}

/// Returns the index of the first blank.
fn first_blank(text: &[u8]) -> Option<usize>
    ensures value { result ≡ position is_blank text.now }
    ensures below { IfSome result (λ n. n < length text.now) }
{
    text.iter().position(|b| is_blank(*b))
}

/// Returns the first word of a text and what follows it, or None where the text has no word. Blanks separate
/// words.
#[tactic(auto, using(crate::proofs::WordSplitting::word_steps))]
pub fn first_word<'a>(text: &'a [u8]) -> Option<(&'a [u8], &'a [u8])>
    ensures value { MatchOption result (words text.now ≡ []) (λ p. words text.now ≡ p.0.now ∷ words p.1.now) }
    ensures shorter { IfSome result (λ p. length p.1.now < length text.now) }
{
    let mut rest = text;
    while let Some(n) = first_blank(rest) {
        let (word, more) = rest.split_at(n);
        rest = more.split_at(1).1;
        if n > 0 {
            return Some((word, rest));
        }
    }
    if rest.is_empty() {
        None
    } else {
        Some((rest, rest.split_at(rest.len()).1))
    }
}

/// Whether a text has a word.
pub fn has_word(text: &[u8]) -> bool
    ensures { result ≡ nat_lt 0 (length (words text.now)) }
{
    first_word(text).is_some()
}

/// Whether a line whose first word is `word` is a comment: the word begins with `#`.
pub fn begins_comment(word: &[u8]) -> bool
    ensures { result ≡ begins_comment word.now }
{
    !word.is_empty() && word[0] == b'#'
}
