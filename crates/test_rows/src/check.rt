//! Rows and the answers that they must have.
use crate::checked::{Checked, Wrong};
use crate::report::{Count, Report, Reported};
use crate::row::{Row, append_line, first_row};
use crate::{boards, image, runs, sentences};
use std::alloc::Global;

/// Appends a row with its answers.
fn append_answered(alloc: Global, row: Row<'_>, text: &mut Vec<u8>) -> Checked<()> {
    if row.has(b'~') {
        sentences::answer(alloc, row, text)
    } else if row.has(b'=') {
        boards::answer(alloc, row, text)
    } else if row.has(b'%') {
        image::answer(alloc, row, text)
    } else if row.has(b'$') {
        runs::answer(alloc, row, text)
    } else {
        Err(Wrong::What("the row asks nothing"))
    }
}

/// Gives a row with its answers, or why there are none.
fn answer(alloc: Global, row: Row<'_>, text: &mut Vec<u8>) -> Reported<()> {
    let Err(why) = append_answered(alloc, row, text) else {
        return Ok(());
    };
    text.clear();
    append_line(why.words().as_bytes(), b"", text)
}

/// Reports a row with its answers, and the first line where it has others.
fn report_row(name: &str, row: Row<'_>, answered: &[u8], report: &mut Report) -> Reported<Count> {
    report.append_answers(answered)?;
    let differs = answered != row.text;
    if differs {
        report.append_difference(name, row.text, answered)?;
    }
    Ok(Count {
        rows: 1,
        differing: differs as usize,
    })
}

/// Answers a row, and reports it.
fn check_row(alloc: Global, name: &str, row: Row<'_>, report: &mut Report) -> Reported<Count> {
    let mut text = Vec::new(alloc);
    answer(alloc, row, &mut text)?;
    report_row(name, row, &text, report)
}

/// Answers each row of a file, reports those that have other answers, and counts them.
pub fn check_rows(alloc: Global, name: &str, text: &[u8], report: &mut Report) -> Reported<Count> {
    let mut count = Count::NONE;
    let mut rest = text;
    for _ in 0..text.len() {
        let Some((row, following)) = first_row(rest) else {
            return Ok(count);
        };
        count = count.plus(check_row(alloc, name, row, report)?);
        rest = following;
    }
    Ok(count)
}
