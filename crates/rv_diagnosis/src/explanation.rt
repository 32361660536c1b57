//! The sentence of a diagnosis.
use crate::characters::bad_byte;
use crate::diagnosis::{Detail, Diagnosis};
use crate::operands::{bad_operands, unknown_word};
use crate::spot::{Spot, line_text, spot_of};
use crate::syntax::syntax;
use crate::text::{Draft, Text, in_words};
use crate::values::{duplicate, misplaced, out_of_range, unknown};
use rv_asm::FaultKind;
use rv_base::NoMemory;
use std::alloc::Global;

/// A diagnosis in words.
#[derive(Drop)]
pub struct Explanation {
    /// What is wrong, in one sentence without a full stop. Pieces of the source are in it as they stand
    /// there.
    pub sentence: Vec<u8>,
    /// What mends it; empty if there is nothing to say.
    pub advice: Vec<u8>,
}

/// Returns what a diagnosis of a source says, in words.
///
/// # Errors
///
/// `NoMemory` if the allocator refuses.
pub fn explain(
    alloc: Global,
    source: &[u8],
    diagnosis: &Diagnosis,
) -> Result<Explanation, NoMemory> {
    let mut draft = Draft {
        sentence: Text::new(alloc),
        advice: Text::new(alloc),
    };
    describe(alloc, source, diagnosis, &mut draft);
    let sentence = draft.sentence.finish()?;
    let advice = draft.advice.finish()?;
    Ok(Explanation { sentence, advice })
}

/// Appends what a diagnosis says.
fn describe(alloc: Global, source: &[u8], diagnosis: &Diagnosis, draft: &mut Draft) {
    let line = line_text(source, diagnosis.line);
    let spot = spot_of(line, diagnosis);
    match diagnosis.kind {
        FaultKind::BadByte => {
            let (said, character) = bad_byte(spot);
            draft.tell(said, character);
        }
        FaultKind::LineTooLong => {
            draft.sentence.say("the line has ");
            draft.sentence.count(line.len());
            draft.sentence.say(" bytes, and may have 1024");
            draft
                .advice
                .say("write several lines, each with its directive");
        }
        FaultKind::Syntax => {
            let (said, piece) = syntax(spot);
            draft.tell(said, piece);
        }
        FaultKind::UnknownWord => unknown_word(alloc, spot, draft),
        FaultKind::TooLarge => draft.tell(
            in_words(
                "with this statement the image passes 16777216 bytes",
                "make the spaces smaller",
            ),
            b"",
        ),
        _ => describe_detail(alloc, source, spot, diagnosis, draft),
    }
}

/// Appends what the detail of a diagnosis says.
fn describe_detail(
    alloc: Global,
    source: &[u8],
    spot: Spot,
    diagnosis: &Diagnosis,
    draft: &mut Draft,
) {
    match diagnosis.detail {
        Detail::Operand(wrong) => {
            let line = line_text(source, diagnosis.line);
            bad_operands(alloc, line, spot, wrong, draft);
        }
        Detail::DefinedOn(first) => duplicate(spot, diagnosis.line, first, draft),
        Detail::Unknown => unknown(alloc, source, spot, diagnosis, draft),
        Detail::OutOfRange { field, value } => out_of_range(spot, field, value, draft),
        Detail::Address(address) => misplaced(spot, address, draft),
        Detail::Nothing => draft.sentence.say(diagnosis.kind.name()),
    }
}
