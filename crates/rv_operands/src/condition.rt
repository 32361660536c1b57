//! What a run goes on for.
ghost use Rattle.std.specs.Prelude.{◌≡◌, drop, option_and_then};
ghost use Rattle.std.specs.Option.{option_map};
ghost use Rattle.rv_base.specs.Tables.{lookup};
ghost use Rattle.rv_base.specs.Words.{words};
ghost use Rattle.rv_asm.specs.Seen.{seen};
ghost use Rattle.rv_operands.specs.Operands.{compared, followed, leading, relations, watched, word_condition, word_value};
ghost use Rattle.rv_recording.specs.declared.until.Condition.TheVariants.{Compares};
ghost use Rattle.rv_operands.specs.Support.Words.{at_place, named_event, size_from};

use crate::place::{Scope, line_with_bytes};
use crate::word::line_number;
use rv_base::{first_word, look_up};
use rv_isa::{Cond, reg_named};
use rv_recording::{Condition, Watched};
use rv_tokens::between;

/// The signs of relations: how a branch compares the two words, and whether it does so exchanged.
static RELATIONS: [(&str, (Cond, bool)); 7] = [
    ("=", (Cond::Eq, false)),
    ("==", (Cond::Eq, false)),
    ("!=", (Cond::Ne, false)),
    (">", (Cond::Lt, true)),
    (">=", (Cond::Ge, false)),
    ("<", (Cond::Lt, false)),
    ("<=", (Cond::Ge, true)),
];

/// The condition at the front of a text, if one is there, and what follows it.
#[derive(Clone, Copy)]
pub struct Leading<'a> {
    /// The condition.
    pub condition: Option<Condition>,
    /// The text after it.
    pub rest: &'a [u8],
}

/// Returns the relation of a sign.
#[tactic(auto, unfolding(crate::specs::Operands::relations))]
fn relation(sign: &[u8]) -> Option<(Cond, bool)>
    ensures { result ≡ lookup sign.now relations }
{
    look_up(&RELATIONS, sign)
}

impl<'a> Scope<'a> {
    /// Returns what a word watches: a register, or the word of memory at an address between brackets.
    #[tactic(auto, unfolding(crate::specs::Operands::watched))]
    fn watched(&self, word: &[u8]) -> Option<Watched>
        ensures { result ≡ watched (seen self.now.listing) self.now.board.now word.now }
    {
        if let Some(register) = reg_named(word) {
            return Some(Watched::Register(register));
        }
        let address = self.address(between(b'[', b']', word)?)?;
        Some(Watched::Word(address))
    }

    /// Returns what a word follows: what it watches, or else the word of memory at its address.
    #[tactic(auto, unfolding(crate::specs::Operands::followed))]
    pub fn followed(&self, word: &[u8]) -> Option<Watched>
        ensures { result ≡ followed (seen self.now.listing) self.now.board.now word.now }
    {
        if let Some(watched) = self.watched(word) {
            return Some(watched);
        }
        let address = self.address(word)?;
        Some(Watched::Word(address))
    }

    /// Returns the number of bytes of a line, or of the next that has some, or 1 where none has.
    fn size(&self, line: usize) -> usize
        ensures { result ≡ size_from (seen self.now.listing) line }
    {
        let listing = self.listing;
        match line_with_bytes(listing, line) {
            Some(line) => listing.bytes(line).len(),
            None => 1,
        }
    }

    /// Returns the condition of a place in the source or in memory: pc is there.
    fn at(&self, word: &[u8]) -> Option<Condition>
        ensures { result ≡ at_place (seen self.now.listing) self.now.board.now word.now }
    {
        let address = self.address(word)?;
        let size = match line_number(word) {
            Some(line) => self.size(line as usize),
            None => 1,
        };
        Some(Condition::At { address, size })
    }

    /// Returns the condition of a name: of traps, or of the console.
    fn named(&self, word: &[u8]) -> Option<Condition>
        ensures { result ≡ named_event self.now.board.now word.now }
    {
        if b"trap".as_slice() == word {
            return Some(Condition::Trap);
        }
        if b"console".as_slice() == word {
            let board = self.board;
            return Some(Condition::Console(board.console().len()));
        }
        None
    }

    /// Returns the condition of one word: that what it watches changes, what it names, or that pc is there.
    #[tactic(auto, unfolding(crate::specs::Operands::word_condition))]
    fn word_condition(&self, word: &[u8]) -> Option<Condition>
        ensures { result ≡ word_condition (seen self.now.listing) self.now.board.now word.now }
    {
        if let Some(watched) = self.watched(word) {
            // A copy: for the borrow checker the call moves its argument.
            let asked = watched;
            let old = asked.value(self.board);
            return Some(Condition::Changed { watched, old });
        }
        match self.named(word) {
            Some(condition) => Some(condition),
            None => self.at(word),
        }
    }

    /// Returns the condition that what a word watches is in a relation with the value of another word.
    fn comparison(&self, word: &[u8], relation: (Cond, bool), value: &[u8]) -> Option<Condition>
        ensures { result ≡ option_and_then (λ w. option_map (λ n. Compares w relation.0 relation.1 n)
            (word_value (seen self.now.listing) self.now.board.now value.now))
            (watched (seen self.now.listing) self.now.board.now word.now) }
    {
        let watched = self.watched(word)?;
        let value = self.value(value)?;
        let (cond, exchanged) = relation;
        Some(Condition::Compares {
            watched,
            cond,
            exchanged,
            value,
        })
    }

    /// Reads the value with which what a word watches is in a relation, at the front of a text.
    fn compared<'b>(&self, word: &[u8], relation: (Cond, bool), text: &'b [u8]) -> Leading<'b>
        ensures condition { result.condition
            ≡ compared (seen self.now.listing) self.now.board.now word.now relation (words text.now) }
        ensures rest { words result.rest.now ≡ drop 1 (words text.now) }
    {
        match first_word(text) {
            Some((value, rest)) => Leading {
                condition: self.comparison(word, relation, value),
                rest,
            },
            None => Leading {
                condition: None,
                rest: text,
            },
        }
    }

    /// Reads the condition at the front of a text.
    #[tactic(auto, unfolding(crate::specs::Operands::leading))]
    pub fn leading<'b>(&self, text: &'b [u8]) -> Leading<'b>
        ensures condition { result.condition
            ≡ (leading (seen self.now.listing) self.now.board.now (words text.now)).0 }
        ensures rest { words result.rest.now
            ≡ (leading (seen self.now.listing) self.now.board.now (words text.now)).1 }
    {
        let Some((word, rest)) = first_word(text) else {
            return Leading {
                condition: None,
                rest: text,
            };
        };
        if let Some((second, more)) = first_word(rest)
            && let Some(relation) = relation(second)
        {
            return self.compared(word, relation, more);
        }
        Leading {
            condition: self.word_condition(word),
            rest,
        }
    }
}
