//! The phases of assembly, from a source to its image, or to all of its faults.
ghost use Rattle.std.specs.Prelude.{◌≡◌, ◌++◌, ◌<◌, [], IfOk, IfSome, OnOk, is_some, length, slice_get, if◌then◌else◌};
ghost use Rattle.std.specs.List.{flat_map};
ghost use Rattle.std.specs.Option.{option_map};
ghost use Rattle.rv_base.specs.Lines.{lines};
ghost use Rattle.rv_source.specs.Reading.{parsed};
ghost use Rattle.rv_tokens.specs.Support.Partial.{Fails as LineFails};
ghost use Rattle.rv_program.specs.Faults.{Gives};
ghost use Rattle.rv_asm.specs.Assembly.{all_parsed, assembled};
ghost use Rattle.rv_asm.specs.Support.Steps.{faults_at, unread_kind, located, item_faults, item_listed};
ghost use Rattle.rv_asm.specs.Support.Phases.{IsExamined, SoFar};

use crate::layout::Known;
use crate::notes::{Notes, note};
use crate::placement::PlacedStatement;
use crate::symbols::Symbols;
use crate::{AsmFault, FaultKind, Program};
use rv_base::cut_lines;
use rv_source::{LineFault, read_line_form};
use std::alloc::{AllocError, Global};

/// Appends the fault of a line, if it has one.
fn append(
    number: usize,
    fault: Option<FaultKind>,
    out: &mut Vec<AsmFault>,
) -> Result<(), AllocError>
    requires counted { number < 0xffffffffffffffff }
    ensures { OnOk result (out.new.items ≡ out.old.items ++ faults_at number fault) }
{
    let Some(kind) = fault else {
        return Ok(());
    };
    let line = number + 1;
    Ok(out.push(AsmFault { line, kind })?)
}

/// Appends the fault of a line that can't be read.
#[tactic(auto, using(crate::proofs::Reading::not_read, crate::proofs::Reading::never_empty))]
fn append_unread(
    number: usize,
    text: &[u8],
    fault: LineFault,
    out: &mut Vec<AsmFault>,
) -> Result<(), AllocError>
    requires counted { number < 0xffffffffffffffff }
    requires fails { LineFails fault (parsed text.now) }
    ensures appends { OnOk result (out.new.items ≡ out.old.items ++ faults_at number (unread_kind text.now)) }
    ensures some { OnOk result (out.new.items ≡ [] → ⊥) }
{
    match fault {
        LineFault::OutOfMemory => Err(AllocError),
        _ => append(number, Some(FaultKind::from(fault)), out),
    }
}

/// The lines that are laid out so far. A fault of phase one on any line takes precedence over those of phase two.
#[derive(Drop)]
pub struct Laid<'a> {
    pub known: Known,
    pub items: Vec<PlacedStatement<'a>>,
    pub notes: Option<Notes>,
    /// The faults of phase one.
    pub unread: Vec<AsmFault>,
    /// The faults of phase two.
    pub misplaced: Vec<AsmFault>,
}

impl<'a> Laid<'a> {
    ghost use Rattle.std.specs.Prelude.{◌≡◌, ◌++◌, ◌≤◌, ◌<◌, [], OnOk};
    ghost use Rattle.std.specs.List.{All};
    ghost use Rattle.rv_asm.specs.Support.Steps.{faults_at, unread_kind};
    ghost use Rattle.rv_asm.specs.Support.Phases.{Takes};

    /// Performs phases one and two on one more line, or phase one alone if a line before it has a fault in phase
    /// one. A line with a fault in phase two is left out.
    #[tactic(auto, using(rv_source::proofs::Parsed::form_fails, rv_source::proofs::Parsed::statement_fails, rv_source::proofs::Parsed::as_parsed, crate::proofs::Reading::read_well))]
    fn take(&mut self, alloc: Global, number: usize, text: &'a [u8]) -> Result<(), AllocError>
        requires up_to { self.old.unread.items ≡ [] → All (λ d. d.line ≤ number) self.old.known.definitions.locals }
        requires counted { number < 0xffffffffffffffff }
        ensures unread { OnOk result (self.new.unread.items ≡ self.old.unread.items ++ faults_at number (unread_kind text.now)) }
        ensures takes { OnOk result (self.new.unread.items ≡ [] → Takes number text.now self.old self.new) }
    {
        let line = match read_line_form(alloc, text) {
            Ok(line) => line,
            Err(fault) => return append_unread(number, text, fault, &mut self.unread),
        };
        let statement = match line.statement() {
            Ok(statement) => statement,
            Err(fault) => return append_unread(number, text, fault, &mut self.unread),
        };
        if !self.unread.as_slice().is_empty() {
            return Ok(());
        }
        let here = self.known.address();
        let fault = self
            .known
            .add(alloc, number, line.labels(), &statement, &mut self.items)?;
        append(number, fault, &mut self.misplaced)?;
        note(alloc, &mut self.notes, here, line.labels(), &self.known)
    }
}

/// Performs phases one and two line by line, with notes of the lines if they are wanted.
fn lay_out<'a>(
    alloc: Global,
    source: &'a [u8],
    notes: Option<Notes>,
) -> Result<Laid<'a>, AllocError>
    requires { IfSome notes (λ n. n ≡ located [] 0) }
    ensures { IfOk result (λ l. SoFar (lines source.now) (length (lines source.now)) notes l) }
{
    let mut laid = Laid {
        known: Known::new(alloc),
        items: Vec::new(alloc),
        notes,
        unread: Vec::new(alloc),
        misplaced: Vec::new(alloc),
    };
    let mut number: usize = 0;
    for text in cut_lines(source) {
        laid.take(alloc, number, text)?;
        number += 1;
    }
    Ok(laid)
}

/// Appends the bytes of a statement, or its fault.
fn write(
    item: &PlacedStatement,
    symbols: &Symbols,
    out: &mut Vec<u8>,
    faults: &mut Vec<AsmFault>,
) -> Result<(), AllocError>
    ensures faults { OnOk result (faults.new.items ≡ faults.old.items ++ item_faults symbols.now item.now) }
    ensures bytes { OnOk result (faults.new.items ≡ [] → out.new.items ≡ out.old.items ++ item_listed symbols.now item.now) }
{
    match item.write(symbols, out) {
        Ok(()) => Ok(()),
        Err(FaultKind::OutOfMemory) => Err(AllocError),
        Err(kind) => append(item.line(), Some(kind), faults),
    }
}

/// Returns the bytes of all statements, and appends the faults of those that have none: phase three. If there are
/// faults before it, nothing is done.
fn image(
    alloc: Global,
    items: &[PlacedStatement],
    symbols: &Symbols,
    faults: &mut Vec<AsmFault>,
) -> Result<Vec<u8>, AllocError>
    ensures faults { OnOk result (faults.new.items ≡ (if is_some (slice_get faults.old.items 0) then faults.old.items else flat_map (item_faults symbols.now) items.now)) }
    ensures bytes { IfOk result (λ v. faults.new.items ≡ [] → v.items ≡ flat_map (item_listed symbols.now) items.now) }
{
    let mut out = Vec::new(alloc);
    if faults.first().is_some() {
        return Ok(out);
    }
    for item in items {
        write(item, symbols, &mut out, faults)?;
    }
    Ok(out)
}

/// A source as far as it can be assembled. Lines are counted from 1.
#[derive(Drop)]
pub struct Reviewed {
    /// The faults of the first phase that has any, in order of lines.
    pub faults: Vec<AsmFault>,
    /// The image, if there are no faults.
    pub(crate) bytes: Vec<u8>,
    /// The symbols, with the address following all lines.
    pub(crate) known: Known,
    pub(crate) notes: Option<Notes>,
}

/// Performs the phases up to the first that has faults, with notes of the lines if they are wanted.
pub fn examine(alloc: Global, source: &[u8], notes: Option<Notes>) -> Result<Reviewed, AllocError>
    requires { IfSome notes (λ n. n ≡ located [] 0) }
    ensures { IfOk result (λ r. IsExamined source.now notes r.faults.items r.bytes.items r.known r.notes) }
{
    let Laid {
        known,
        items,
        notes,
        unread,
        misplaced,
    } = lay_out(alloc, source, notes)?;
    let mut faults = if unread.first().is_some() {
        unread
    } else {
        misplaced
    };
    let bytes = image(alloc, &items, known.symbols(), &mut faults)?;
    Ok(Reviewed {
        faults,
        bytes,
        known,
        notes,
    })
}

/// Assembles a source into its image and its names, with notes of its lines if they are wanted.
#[tactic(auto, using(crate::proofs::Counting::none_first, crate::proofs::Examining::fails_first))]
pub fn assemble_noting(
    alloc: Global,
    source: &[u8],
    notes: Option<Notes>,
) -> Result<(Program, Option<Notes>), AsmFault>
    requires { IfSome notes (λ n. n ≡ located [] 0) }
    ensures program { Gives (λ p. p.0) result (assembled source.now) }
    ensures notes { IfOk result (λ p. p.1 ≡ option_map (λ _. located (all_parsed (lines source.now)) (length (lines source.now))) notes) }
{
    let Reviewed {
        faults,
        bytes,
        known,
        notes,
    } = examine(alloc, source, notes)?;
    match faults.first() {
        None => Ok((Program::new(bytes, known.into_symbols().names), notes)),
        Some(first) => Err(AsmFault::at(first.line, first.kind)),
    }
}

/// Assembles a source into its image and its names.
///
/// # Errors
///
/// The fault of the first faulty line in the first phase that has one. `OutOfMemory`, at line 0, may come in
/// place of any result.
pub fn assemble(alloc: Global, source: &[u8]) -> Result<Program, AsmFault>
    ensures { Gives (λ p. p) result (assembled source.now) }
{
    let (program, _) = assemble_noting(alloc, source, None)?;
    Ok(program)
}
