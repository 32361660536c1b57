//! Local labels, which may be defined any number of times.
ghost use Rattle.std.specs.Prelude.{◌≡◌, ◌≤◌, ◌<◌, ℕ, [], get_or, length, OnOk};
ghost use Rattle.std.specs.List.{All};
ghost use Rattle.rv_asm.specs.Support.Statements.{Files};

use rv_tokens::Direction;
use std::alloc::{AllocError, Global};
use std::marker::Model;

/// A definition of a local label.
#[derive(Clone, Copy)]
pub struct LocalLabel {
    /// Its line, counted from 0.
    pub line: usize,
    /// The address that it stands for.
    pub address: u32,
    /// Its number: 0 to 9999.
    pub number: u16,
}

/// The definitions of one number, in order of lines.
#[derive(Drop)]
struct Repeated(Vec<LocalLabel>);

impl Model for Repeated {
    ghost use Rattle.std.specs.Prelude.{List};
    ghost use Rattle.std.specs.List.Sorted.{IsNonDecreasingBy};
    ghost use Rattle.rv_asm.specs.declared.locals.LocalLabel.{LocalLabel};

    ghost Value = { List LocalLabel };

    ghost view = { λ r. r.0.items };

    ghost invariant = { λ r. IsNonDecreasingBy (λ d. d.line) r.0.items };
}

impl Repeated {
    ghost use Rattle.std.specs.Prelude.{◌≡◌, ◌≤◌, [], ◌∷◌, ◌++◌, None, filter, nat_le, nat_lt, slice_get, OnOk, OnErr};
    ghost use Rattle.std.specs.List.{All, find, last_or};
    ghost use Rattle.rv_asm.specs.Symbols.{nearest};
    ghost use Rattle.rv_asm.specs.Support.Statements.{last_of};

    fn push(&mut self, label: LocalLabel) -> Result<(), AllocError>
        requires { All (λ d. d.line ≤ label.line) self.old }
        ensures ok { OnOk result (self.new ≡ self.old ++ label ∷ []) }
        ensures err { OnErr result (self.new ≡ self.old) }
    {
        Ok(self.0.push(label)?)
    }

    /// Returns the number of definitions on a line or before it.
    fn count_up_to(&self, line: usize) -> usize
        ensures last { last_or None (filter (λ d. nat_le d.line line) self.now) ≡ last_of self.now result }
        ensures next { find (λ d. nat_lt line d.line) self.now ≡ slice_get self.now result }
    {
        self.0.partition_point(|label| label.line <= line)
    }

    /// Returns the definition that a reference on a line means, if there is one.
    fn nearest(&self, direction: Direction, line: usize) -> Option<LocalLabel>
        ensures { result ≡ nearest self.now line direction }
    {
        let count = self.count_up_to(line);
        match direction {
            Direction::Backward => self.0.get(count.checked_sub(1)?).copied(),
            Direction::Forward => self.0.get(count).copied(),
        }
    }
}

/// Appends a definition to the list of its number, which is made if there is none.
fn file(alloc: Global, lists: &mut Vec<Repeated>, label: LocalLabel) -> Result<(), AllocError>
    requires { All (λ d. d.line ≤ label.line) (get_or lists.old.items label.number []) }
    ensures { Files lists.old.items lists.new.items label result }
{
    let number = usize::from(label.number);
    while lists.len() <= number {
        lists.push(Repeated(Vec::new(alloc)))?;
    }
    lists[number].push(label)
}

/// The definitions of local labels, in order of lines.
pub struct Locals {
    labels: Vec<LocalLabel>,
    /// The definitions of each number, at the index of the number.
    by_number: Vec<Repeated>,
}

// Hand-written: a derived `Drop` would be proved anew at each exit (docs/PROVING.md).
impl Drop for Locals {
    fn drop(self) {
        let Locals { labels, by_number } = self;
    }
}

impl Model for Locals {
    ghost use Rattle.std.specs.Prelude.{◌≡◌, ℕ, List, [], get_or};
    ghost use Rattle.rv_asm.specs.declared.locals.LocalLabel.{LocalLabel};
    ghost use Rattle.rv_asm.specs.Support.Statements.{of_number};

    ghost Value = { List LocalLabel };

    ghost view = { λ l. l.labels.items };

    ghost invariant = { λ l. (n : ℕ) → get_or l.by_number.items n [] ≡ of_number n l.labels.items };
}

impl Locals {
    ghost use Rattle.std.specs.Prelude.{◌≡◌, ◌≤◌, [], ◌∷◌, ◌++◌, OnOk};
    ghost use Rattle.std.specs.List.{All};
    ghost use Rattle.rv_asm.specs.Support.Statements.{of_number};
    ghost use Rattle.rv_asm.specs.Symbols.{nearest};

    pub fn new(alloc: Global) -> Self
        ensures { result ≡ [] }
    {
        Locals {
            labels: Vec::new(alloc),
            by_number: Vec::new(alloc),
        }
    }

    /// Defines a label. Its line is no earlier than those of the definitions before it.
    pub fn define(&mut self, alloc: Global, label: LocalLabel) -> Result<(), AllocError>
        requires { All (λ d. d.line ≤ label.line) self.old }
        ensures { OnOk result (self.new ≡ self.old ++ label ∷ []) }
    {
        self.labels.push(label)?;
        let filed = file(alloc, &mut self.by_number, label);
        if filed.is_err() {
            self.labels.truncate(self.labels.len() - 1);
        }
        filed
    }

    /// Returns the definition that a reference on a line means, if there is one.
    pub fn nearest(&self, number: u16, direction: Direction, line: usize) -> Option<LocalLabel>
        ensures { result ≡ nearest (of_number number self.now) line direction }
    {
        self.by_number
            .get(usize::from(number))?
            .nearest(direction, line)
    }
}
