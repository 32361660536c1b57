//! Lines of a source.
ghost use Rattle.std.specs.Prelude.{◌≡◌};

use crate::table::meaning;
use crate::{LineFault, List, Operand, Statement};
use rv_tokens::Name;
use std::marker::Model;

/// A label: it stands for the address of the next statement.
#[derive(Drop)]
pub enum Label<'a> {
    /// A name other than `.`, which is defined once in a source.
    Name(Name<'a>),
    /// A local label: a number from 0 to 9999, which may be defined any number of times.
    Local(u16),
}

/// What a line has after its labels.
#[derive(Drop)]
pub enum Body<'a> {
    Nothing,
    /// A directive without effect, with any tokens after it.
    Marker,
    /// Any other word with its operands.
    Word {
        word: Name<'a>,
        operands: List<Operand<'a>>,
    },
}

/// The form of a line: its labels, and a word with its operands, which may stand for nothing. Its view is its
/// labels and what follows them.
pub struct LineForm<'a> {
    pub(crate) labels: Vec<Label<'a>>,
    pub(crate) body: Body<'a>,
}

// Hand-written: a derived `Drop` would be proved anew at each exit (docs/PROVING.md).
impl<'a> Drop for LineForm<'a> {
    fn drop(self) {
        let LineForm { labels: _, body: _ } = self;
    }
}

impl<'a> Model for LineForm<'a> {
    ghost use Rattle.std.specs.Prelude.{List};
    ghost use Rattle.rv_source.specs.declared.line.Label.{Label};
    ghost use Rattle.rv_source.specs.declared.line.Body.{Body};

    ghost Value = { List Label × Body };

    ghost view = { λ l. (l.labels.items, l.body) };
}

impl<'a> LineForm<'a> {
    ghost use Rattle.std.specs.Prelude.{◌≡◌};
    ghost use Rattle.rv_source.specs.Reading.{statement_of};

    /// Returns the labels, from left to right.
    pub fn labels(&self) -> &[Label<'a>]
        ensures { result.now ≡ self.now.0 }
    {
        self.labels.as_slice()
    }

    /// Returns what follows the labels.
    pub fn body(&self) -> &Body<'a>
        ensures { result.now ≡ self.now.1 }
    {
        &self.body
    }

    /// Returns the statement, if the line has one. It takes no memory.
    ///
    /// # Errors
    ///
    /// `UnknownWord` if the word is neither a mnemonic nor a directive, else `BadOperands` if it doesn't take
    /// the operands.
    pub fn statement<'t>(&'t self) -> Result<Option<Statement<'t, 'a>>, LineFault>
        ensures { result ≡ statement_of self.now.1 }
    {
        match &self.body {
            Body::Nothing => Ok(None),
            Body::Marker => Ok(Some(Statement::Marker)),
            Body::Word { word, operands } => meaning(word.bytes(), operands.as_slice()).map(Some),
        }
    }
}

/// A line as it is read: its labels and its statement. Its view is both.
#[derive(Drop)]
pub struct Line<'a>(pub(crate) LineForm<'a>);

impl<'a> Model for Line<'a> {
    ghost use Rattle.std.specs.Prelude.{None};
    ghost use Rattle.std.specs.Result.{result_unwrap_or};
    ghost use Rattle.rv_source.specs.Reading.{Parsed, statement_of};

    ghost Value = { Parsed };

    ghost view = { λ l. record { labels = l.0.0; statement = result_unwrap_or (statement_of l.0.1) None } };
}

impl<'a> Line<'a> {
    ghost use Rattle.std.specs.Prelude.{◌≡◌};

    /// Returns the labels, from left to right.
    pub fn labels(&self) -> &[Label<'a>]
        ensures { result.now ≡ self.now.labels }
    {
        self.0.labels()
    }

    /// Returns the statement, if the line has one. It takes no memory.
    pub fn statement<'t>(&'t self) -> Option<Statement<'t, 'a>>
        ensures { result ≡ self.now.statement }
    {
        // `read_line` makes no line whose statement has a fault.
        self.0.statement().unwrap_or(None)
    }
}
