//! Sentences in the making.
use itoa::Buffer;
use rv_base::NoMemory;
use std::alloc::Global;

/// What is said: a sentence and advice, in which `^` stands for the piece of the line that is meant. Advice
/// is empty where there is none.
#[derive(Clone, Copy)]
pub(crate) struct Words {
    pub sentence: &'static str,
    pub advice: &'static str,
}

/// Makes words.
pub(crate) fn in_words(sentence: &'static str, advice: &'static str) -> Words {
    Words { sentence, advice }
}

/// A text that is appended to. Where memory runs out it takes nothing more, and remembers that.
#[derive(Drop)]
pub(crate) struct Text {
    bytes: Vec<u8>,
    is_cut: bool,
}

impl Text {
    pub(crate) fn new(alloc: Global) -> Text {
        Text {
            bytes: Vec::new(alloc),
            is_cut: false,
        }
    }

    /// Whether nothing was appended.
    pub(crate) fn is_empty(&self) -> bool {
        self.bytes.is_empty()
    }

    /// Appends bytes.
    pub(crate) fn put(&mut self, piece: &[u8]) {
        if !self.is_cut {
            self.is_cut = self.bytes.extend_from_slice(piece).is_err();
        }
    }

    /// Appends a text.
    pub(crate) fn say(&mut self, text: &str) {
        self.put(text.as_bytes());
    }

    /// Appends a number.
    pub(crate) fn number(&mut self, number: i64) {
        let mut buffer = Buffer::new();
        self.put(buffer.format(number).as_bytes());
    }

    /// Appends a count.
    pub(crate) fn count(&mut self, number: usize) {
        let mut buffer = Buffer::new();
        self.put(buffer.format(number).as_bytes());
    }

    /// Appends a text in which `^` stands for a piece.
    pub(crate) fn fill(&mut self, text: &str, piece: &[u8]) {
        for byte in text.as_bytes() {
            match *byte {
                b'^' => self.put(piece),
                byte => self.put(&[byte]),
            }
        }
    }

    /// Returns the text.
    pub(crate) fn finish(self) -> Result<Vec<u8>, NoMemory> {
        if self.is_cut {
            return Err(NoMemory);
        }
        Ok(self.bytes)
    }
}

/// A sentence and advice in the making.
#[derive(Drop)]
pub(crate) struct Draft {
    pub sentence: Text,
    pub advice: Text,
}

impl Draft {
    /// Appends words about a piece.
    pub(crate) fn tell(&mut self, words: Words, piece: &[u8]) {
        self.sentence.fill(words.sentence, piece);
        self.advice.fill(words.advice, piece);
    }
}
