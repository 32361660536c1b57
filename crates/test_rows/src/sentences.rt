//! What is said of the faulty source of a row, and where.
use crate::checked::Checked;
use crate::row::{Answers, Appended, Row, append_answers, append_line, append_shown};
use rv_base::cut_lines;
use rv_diagnosis::{Diagnosis, append_report, diagnose, explain};
use std::alloc::Global;

/// Appends a sentence, and advice on a line of its own.
fn append_said(sentence: &[u8], advice: &[u8], text: &mut Vec<u8>) -> Appended {
    append_line(b"", sentence, text)?;
    if !advice.is_empty() {
        append_line(b"+ ", advice, text)?;
    }
    Ok(())
}

/// Appends the place of a diagnosis, its number and its sentence, and its advice on a line of its own.
fn append_diagnosis(alloc: Global, source: &[u8], one: &Diagnosis, text: &mut Vec<u8>) -> Appended {
    let number = one.kind.number();
    let place = format!(in alloc; "= {}:{}+{} E{number} ", one.line, one.column, one.length);
    append_shown(place, text)?;
    let said = explain(alloc, source, one)?;
    append_said(&said.sentence, &said.advice, text)
}

/// Appends each line of a report with `> ` in front.
fn append_quoted(report: &[u8], text: &mut Vec<u8>) -> Appended {
    for line in cut_lines(report) {
        append_line(b"> ", line, text)?;
    }
    Ok(())
}

/// A source with its diagnoses.
#[derive(Clone, Copy)]
struct Diagnosed<'a> {
    source: &'a [u8],
    found: &'a [Diagnosis],
}

impl<'a> Diagnosed<'a> {
    /// Appends the report of the diagnoses.
    fn append_report(&self, alloc: Global, text: &mut Vec<u8>) -> Appended {
        let mut report = Vec::new(alloc);
        append_report(alloc, "x.s", self.source, self.found, &mut report)?;
        append_quoted(&report, text)
    }

    /// Appends each diagnosis.
    fn append_each(&self, alloc: Global, text: &mut Vec<u8>) -> Appended {
        for one in self.found {
            append_diagnosis(alloc, self.source, one, text)?;
        }
        Ok(())
    }
}

impl<'a> Answers for Diagnosed<'a> {
    fn answer(&mut self, alloc: Global, mark: u8, argument: &[u8], text: &mut Vec<u8>) -> Appended {
        if mark != b'~' {
            Ok(())
        } else if argument == b"report".as_slice() {
            self.append_report(alloc, text)
        } else {
            self.append_each(alloc, text)
        }
    }
}

/// Appends the row with what is said of its source.
pub fn answer(alloc: Global, row: Row<'_>, text: &mut Vec<u8>) -> Checked<()> {
    let source = row.lines_of(alloc, b' ')?;
    let found = diagnose(alloc, &source)?;
    let mut diagnosed = Diagnosed {
        source: &source,
        found: &found,
    };
    Ok(append_answers(alloc, row, b"# ~", &mut diagnosed, text)?)
}
