//! Phase two: the addresses of statements, and the symbols that lines define.
use crate::FaultKind;
use crate::extent::extent_of;
use crate::locals::LocalLabel;
use crate::placement::PlacedStatement;
use crate::symbols::{Scope, Symbols};
use rv_base::RAM_BASE;
use rv_source::{Label, Statement};
use std::alloc::{AllocError, Global};
use std::marker::Model;

/// The state between two statements: the address of the next one, and the symbols defined so far.
#[derive(Drop)]
pub struct Known {
    address: u32,
    symbols: Symbols,
}

impl Model for Known {
    ghost use Rattle.std.specs.Prelude.{◌≤◌};
    ghost use Rattle.rv_asm.specs.Layout.{Known};
    ghost use Rattle.rv_asm.specs.Support.Statements.{image_end};

    ghost Value = { Known };

    ghost view = { λ k. record { address = k.address; definitions = k.symbols } };

    ghost invariant = { λ k. k.address ≤ image_end };
}

impl Known {
    ghost use Rattle.std.specs.Prelude.{◌≡◌, ◌≤◌, ◌<◌, ◌∷◌, [], OnOk, IfOk};
    ghost use Rattle.std.specs.List.{All};
    ghost use Rattle.rv_asm.specs.Support.Steps.{relabels, start, labelled, LaysOut, new_among};
    ghost use Rattle.rv_asm.specs.Support.Statements.{image_end};

    pub fn new(alloc: Global) -> Self
        ensures { result ≡ start }
    {
        Known {
            address: RAM_BASE,
            symbols: Symbols::new(alloc),
        }
    }

    /// Returns the symbols defined so far.
    pub fn symbols(&self) -> &Symbols
        ensures { result.now ≡ self.now.definitions }
    {
        &self.symbols
    }

    /// Defines a label as the current address, unless its name is already defined. Returns whether it is.
    fn label(&mut self, alloc: Global, line: usize, label: &Label) -> Result<bool, AllocError>
        requires { All (λ d. d.line ≤ line) self.old.definitions.locals }
        ensures known { OnOk result (self.new ≡ labelled line self.old (new_among self.old (label.now ∷ []))) }
        ensures old { IfOk result (λ old. old ≡ relabels self.old (label.now ∷ [])) }
    {
        match label {
            Label::Name(name) => {
                if self.symbols.names.value(name.bytes()).is_some() {
                    return Ok(true);
                }
                let address = i64::from(self.address);
                self.symbols.names.define(alloc, name.bytes(), address)?;
                Ok(false)
            }
            Label::Local(number) => {
                let label = LocalLabel {
                    number: *number,
                    line,
                    address: self.address,
                };
                self.symbols.locals.define(alloc, label)?;
                Ok(false)
            }
        }
    }

    /// Defines the labels of a line but those whose name is already defined, from left to right. Returns
    /// whether any is left out.
    fn new_labels(
        &mut self,
        alloc: Global,
        line: usize,
        labels: &[Label],
    ) -> Result<bool, AllocError>
        requires { All (λ d. d.line ≤ line) self.old.definitions.locals }
        ensures known { OnOk result (self.new ≡ labelled line self.old (new_among self.old labels.now)) }
        ensures old { IfOk result (λ old. old ≡ relabels self.old labels.now) }
    {
        let mut left_out = false;
        for label in labels {
            let is_old = self.label(alloc, line, label)?;
            left_out = left_out || is_old;
        }
        Ok(left_out)
    }

    /// Returns the scope of a statement of a line at the current address.
    fn scope(&self, line: usize) -> Scope<'_>
        ensures symbols { result.symbols.now ≡ self.now.definitions }
        ensures line { result.line ≡ line }
        ensures here { result.here ≡ self.now.address }
        ensures within { self.now.address ≤ image_end }
    {
        Scope {
            symbols: self.symbols(),
            line,
            here: self.address,
        }
    }

    /// Lays out one more line: defines its labels and places its statement. Returns its fault in phase two, if
    /// it has one: then its statement is left out, and so are labels that define a name a second time. `number`
    /// counts from 0.
    #[tactic(auto, using(crate::proofs::Examining::added_steps), unfolding(crate::specs::Support::Steps::fault_on, crate::specs::Listing::emitted))]
    pub fn add<'a>(
        &mut self,
        alloc: Global,
        number: usize,
        labels: &[Label],
        statement: &Option<Statement<'_, 'a>>,
        items: &mut Vec<PlacedStatement<'a>>,
    ) -> Result<Option<FaultKind>, AllocError>
        requires up_to { All (λ d. d.line ≤ number) self.old.definitions.locals }
        requires counted { number < 0xffffffffffffffff }
        ensures { IfOk result (λ f. LaysOut number self.old (record { labels = labels.now; statement = statement.now }) f self.new items.old.items items.new.items) }
    {
        if self.new_labels(alloc, number, labels)? {
            return Ok(Some(FaultKind::DuplicateSymbol));
        }
        let scope = self.scope(number);
        let Some(statement) = statement else {
            return Ok(None);
        };
        let extent = match extent_of(scope, statement) {
            Ok(extent) => extent,
            Err(kind) => return Ok(Some(kind)),
        };
        let constant = extent.constant;
        let item = PlacedStatement::new(alloc, number, self.address, constant, statement)?;
        self.symbols.define_constant(alloc, constant, statement)?;
        self.address = extent.end;
        items.push(item)?;
        Ok(None)
    }

    /// Returns the address of the next statement.
    pub fn address(&self) -> u32
        ensures { result ≡ self.now.address }
    {
        self.address
    }

    /// Returns the symbols defined so far, without the address.
    pub fn into_symbols(self) -> Symbols
        ensures value { result ≡ self.definitions }
        ensures within { self.address ≤ image_end }
    {
        self.symbols
    }
}
