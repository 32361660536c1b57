//! The text of an answer.
use crate::many::Many;
use crate::shown::Shown;
use itoa::Buffer;
use rv_base::NoMemory;
use rv_isa::{Instr, write_instr};
use std::alloc::Global;
use std::fmt::{self, Display};
use std::marker::Model;

/// A text that answers are appended to. Where memory runs out it takes nothing more, and remembers that.
#[derive(Drop)]
pub struct Printer {
    alloc: Global,
    bytes: Vec<u8>,
    is_cut: bool,
}

impl Model for Printer {
    ghost use Rattle.rv_answers.specs.Printer.{Written};

    ghost Value = { Written };

    ghost view = { λ a. record { bytes = a.bytes.items; is_cut = a.is_cut } };
}

impl Printer {
    ghost use Rattle.std.specs.Prelude.{◌≡◌, [], true, false, IfOk, OnOk};
    ghost use Rattle.std.specs.Fmt.{decimal};
    ghost use Rattle.rv_answers.specs.Printer.{Appended};

    /// Returns an empty answer. It doesn't allocate.
    pub fn new(alloc: Global) -> Printer
        ensures { result ≡ record { bytes = []; is_cut = false } }
    {
        Printer {
            alloc,
            bytes: Vec::new(alloc),
            is_cut: false,
        }
    }

    /// Returns the text.
    pub fn bytes(&self) -> &[u8]
        ensures { result.now ≡ self.now.bytes }
    {
        self.bytes.as_slice()
    }

    /// Whether memory ran out, so that a piece is missing at the end.
    pub fn is_cut(&self) -> bool
        ensures { result ≡ self.now.is_cut }
    {
        self.is_cut
    }

    /// Returns the bytes, if no piece is missing at their end.
    pub fn whole(self) -> Result<Many<u8>, NoMemory>
        ensures text { IfOk result (λ t. t ≡ self.bytes) }
        ensures whole { OnOk result (self.is_cut ≡ false) }
    {
        if self.is_cut {
            return Err(NoMemory);
        }
        Ok(Many::of(self.bytes))
    }

    /// Makes the answer empty.
    pub fn clear(&mut self)
        ensures { self.new ≡ record { bytes = []; is_cut = false } }
    {
        self.bytes.clear();
        self.is_cut = false;
    }

    /// Returns the allocator.
    pub fn alloc(&self) -> Global {
        self.alloc
    }

    /// Notes that memory ran out, so that a piece is missing at the end.
    pub fn cut(&mut self)
        ensures { self.new ≡ record self.old { is_cut = true } }
    {
        self.is_cut = true;
    }

    /// Appends a piece.
    pub fn put(&mut self, piece: &[u8])
        ensures { Appended self.old self.new piece.now }
    {
        if self.is_cut {
            return;
        }
        self.is_cut = self.bytes.extend_from_slice(piece).is_err();
    }

    /// Appends a text.
    pub fn say(&mut self, text: &str)
        ensures { Appended self.old self.new text.now }
    {
        self.put(text.as_bytes());
    }

    /// Appends a number in decimal.
    pub fn number(&mut self, number: u64)
        ensures { Appended self.old self.new (decimal number) }
    {
        let mut buffer = Buffer::new();
        self.put(buffer.format(number).as_bytes());
    }

    /// Appends the number of a line of a source, and its text.
    pub(crate) fn line(&mut self, number: usize, line: &[u8]) {
        let mut buffer = Buffer::new();
        let digits = buffer.format(number);
        let width = 5usize.saturating_sub(digits.len());
        write!(self, "{digits}:{:width$}{}", "", Shown(line));
    }

    /// Appends a format, as `write!` does.
    pub fn write_fmt<D: Display + Drop>(&mut self, format: D) {
        if fmt::Write::write_fmt(self, format).is_err() {
            self.cut();
        }
    }

    /// Appends that a text, without the blanks at its ends, isn't what a command wants, and why.
    pub fn refuse(&mut self, command: &str, text: &[u8], why: &str) {
        write!(self, "{command}: `{}` {why}", Shown(text.trim_ascii()));
    }

    /// Ends the line.
    pub fn end(&mut self) {
        self.put(b"\n");
    }

    /// Appends the text of an instruction.
    pub fn instruction(&mut self, instr: Instr) {
        if !self.is_cut {
            self.is_cut = write_instr(instr, &mut self.bytes).is_err();
        }
    }
}

impl fmt::Write for Printer {
    fn write_str(&mut self, text: &str) -> fmt::Result {
        self.say(text);
        Ok(())
    }
}
