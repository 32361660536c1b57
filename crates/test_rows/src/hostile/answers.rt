//! The answers that a source, a timed list and commands may get, whatever they say.
use crate::hostile::texts::SENDER;
use crate::runs::{Texts, WHOLE, run};
use rv_asm::FaultKind;
use rv_cli::{CliFault, Options};
use std::alloc::Global;

/// The kind of a text.
#[derive(Clone, Copy, PartialEq, Eq)]
pub enum Text {
    Source,
    Inputs,
    Commands,
}

/// The options of a run of up to a thousand steps.
const OPTIONS: Options = Options {
    steps: 1000,
    pages: 64,
    slots: 64,
};

/// Whether a text has a line of this number; the first is line 1.
fn has_line(text: &[u8], line: usize) -> bool {
    let mut lines = 1usize;
    for byte in text.iter() {
        if *byte == b'\n' {
            lines = lines.saturating_add(1);
        }
    }
    1 <= line && line <= lines
}

/// Whether a text of this kind may have this fault.
fn may_be_refused(kind: Text, text: &[u8], fault: CliFault) -> bool {
    match fault {
        CliFault::Source(fault) => {
            kind == Text::Source
                && fault.kind != FaultKind::OutOfMemory
                && has_line(text, fault.line)
        }
        CliFault::ImageTooLarge => kind == Text::Source,
        CliFault::Input(line) => kind == Text::Inputs && has_line(text, line),
        _ => false,
    }
}

/// Returns the texts of a run with a text of this kind.
fn texts(kind: Text, text: &[u8]) -> Texts<'_> {
    let mut texts = Texts {
        source: SENDER,
        inputs: b"",
        commands: None,
    };
    match kind {
        Text::Source => texts.source = text,
        Text::Inputs => texts.inputs = text,
        Text::Commands => texts.commands = Some(text),
    }
    texts
}

/// Whether a text is answered by a whole run, or by a fault that a text of its kind may have.
pub fn is_answered(alloc: Global, kind: Text, text: &[u8]) -> bool {
    let ran = run(alloc, texts(kind, text), OPTIONS, WHOLE);
    match ran.outcome {
        Ok(_) => ran.out.bytes().ends_with(b" steps\n"),
        Err(fault) => ran.out.bytes().is_empty() && may_be_refused(kind, text, fault),
    }
}
