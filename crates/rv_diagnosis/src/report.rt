//! Diagnoses as compilers print them.
use crate::diagnosis::{Detail, Diagnosis};
use crate::explanation::explain;
use crate::spot::{Spot, line_text, spot_of};
use crate::text::Text;
use rv_base::{LINE_LIMIT, NoMemory};
use std::alloc::Global;

/// The most diagnoses that are written.
const MOST: usize = 20;

/// How many bytes are shown of a line that is too long.
const SHOWN: usize = 72;

/// Appends a part of a line, in which control characters but tabs are shown as question marks, and so is each
/// byte above ASCII where the part isn't UTF-8.
fn append_shown(part: &[u8], out: &mut Text) {
    let Ok(text) = str::from_utf8(part) else {
        return append_ascii(part, out);
    };
    for character in text.chars() {
        if character != '\t' && character.is_control() {
            out.put(b"?");
        } else {
            out.say(character.encode_utf8(&mut [0; 4]));
        }
    }
}

/// Appends a part of a line, in which bytes that aren't printing ASCII are shown as question marks, but tabs.
fn append_ascii(part: &[u8], out: &mut Text) {
    for byte in part {
        match *byte {
            b'\t' | b' '..=b'~' => out.put(&[*byte]),
            _ => out.put(b"?"),
        }
    }
}

/// Appends `mark` for each character of a part of a line. Tabs are kept if `tabs` says so.
fn append_marks(part: &[u8], mark: &[u8], out: &mut Text) {
    for byte in part {
        match *byte {
            b'\t' if mark == b" ".as_slice() => out.put(b"\t"),
            0x80..=0xbf => {}
            _ => out.put(mark),
        }
    }
}

/// Appends a line, and a mark beneath a place in it.
fn append_marked(spot: Spot, out: &mut Text) {
    let long = spot.before.len().saturating_add(spot.rest.len()) > LINE_LIMIT;
    out.say("    ");
    if long {
        append_shown(spot.before.split_at(SHOWN.min(spot.before.len())).0, out);
        out.say(" ..\n");
        return;
    }
    append_shown(spot.before, out);
    append_shown(spot.rest, out);
    out.say("\n    ");
    append_marks(spot.before, b" ", out);
    if spot.piece.len() > 1 {
        append_marks(spot.piece, b"^", out);
    } else {
        out.say("^");
    }
    out.say("\n");
}

/// Appends a diagnosis: `FILE:LINE:COLUMN: KIND: sentence`, the line, a mark beneath the place, and advice.
fn append_one(
    alloc: Global,
    file: &str,
    source: &[u8],
    diagnosis: &Diagnosis,
    out: &mut Text,
) -> Result<(), NoMemory> {
    let explanation = explain(alloc, source, diagnosis)?;
    out.say(file);
    out.say(":");
    out.count(diagnosis.line);
    out.say(":");
    out.count(diagnosis.column);
    out.say(": E");
    out.number(i64::from(diagnosis.kind.number()));
    out.say(" ");
    out.say(diagnosis.kind.name());
    out.say(": ");
    append_shown(&explanation.sentence, out);
    out.say("\n");
    append_marked(spot_of(line_text(source, diagnosis.line), diagnosis), out);
    if !explanation.advice.is_empty() {
        out.say("  help: ");
        append_shown(&explanation.advice, out);
        out.say("\n");
    }
    Ok(())
}

/// Whether a diagnosis is that of an instruction whose address is no multiple of 4.
fn is_unaligned(diagnosis: &Diagnosis) -> bool {
    matches!(diagnosis.detail, Detail::Address(_))
}

/// Appends how many faulty lines weren't told, and how many of them follow from the first that isn't aligned.
fn append_untold(more: usize, unaligned: usize, out: &mut Text) {
    if more > 0 {
        out.say("and ");
        out.count(more);
        out.say(" more faulty lines\n");
    }
    if unaligned > 1 {
        out.say("and ");
        out.count(unaligned - 1);
        out.say(" more at addresses that are no multiple of 4: mend the first such line\n");
    }
}

/// Appends what is wrong with a source as compilers print it: for each diagnosis a line
/// `FILE:LINE:COLUMN: KIND: sentence`, the line of the source, a mark beneath the place that is meant, and
/// a line of advice where there is some. At most 20 diagnoses are written, and then how many more there are. Of the
/// instructions that aren't aligned only the first is written: the others mostly follow from it.
///
/// # Errors
///
/// `NoMemory` if the allocator refuses: the beginning of the text may be appended then.
pub fn append_report(
    alloc: Global,
    file: &str,
    source: &[u8],
    diagnoses: &[Diagnosis],
    out: &mut Vec<u8>,
) -> Result<(), NoMemory> {
    let mut text = Text::new(alloc);
    let mut told: usize = 0;
    let mut more: usize = 0;
    let mut unaligned: usize = 0;
    for diagnosis in diagnoses {
        if is_unaligned(diagnosis) {
            unaligned = unaligned.saturating_add(1);
        }
        if unaligned > 1 && is_unaligned(diagnosis) {
            continue;
        }
        if told >= MOST {
            more = more.saturating_add(1);
            continue;
        }
        told += 1;
        append_one(alloc, file, source, diagnosis, &mut text)?;
    }
    append_untold(more, unaligned, &mut text);
    let bytes = text.finish()?;
    out.extend_from_slice(&bytes)?;
    Ok(())
}
