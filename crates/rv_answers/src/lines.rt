//! A source with its lines and labels, places in it, and instructions.
use crate::Printer;
use crate::shown::Shown;
use crate::values::Place;
use rv_asm::Listing;
use rv_base::{Cut, cut_lines};
use rv_isa::decode;
use std::fmt::{self, Display, Formatter};
use std::iter::Skip;

/// A source with its lines and labels, which the values name by numbers.
#[derive(Clone, Copy)]
pub struct Lines<'a> {
    pub source: &'a [u8],
    pub listing: Listing<'a>,
}

/// The label before a place and the distance from it, as ` <loop+8>`, if the place lies in the image.
#[derive(Clone, Copy)]
pub(crate) struct Near<'a>(pub(crate) Lines<'a>, pub(crate) Place);

impl Display for Near<'_> {
    fn fmt<W: fmt::Write>(&self, f: &mut Formatter<W>) -> fmt::Result {
        let Near(lines, place) = *self;
        match (place.distance, lines.listing.label_before(place.address)) {
            (Some(0), Some(near)) => write!(f, " <{}>", Shown(near.name.bytes())),
            (Some(far), Some(near)) => write!(f, " <{}+{far}>", Shown(near.name.bytes())),
            _ => Ok(()),
        }
    }
}

/// A place: its line's number, its label, and its address.
#[derive(Clone, Copy)]
pub(crate) struct Short<'a>(pub(crate) Lines<'a>, pub(crate) Place);

impl Display for Short<'_> {
    fn fmt<W: fmt::Write>(&self, f: &mut Formatter<W>) -> fmt::Result {
        let Short(lines, place) = *self;
        let (near, address) = (Near(lines, place), place.address);
        match place.line {
            Some(line) => write!(f, " line {line}{near} ({address:08x})"),
            None => write!(f, "{near} ({address:08x})"),
        }
    }
}

impl<'a> Lines<'a> {
    /// Returns an address with a word that was there as a place.
    pub(crate) fn place_at(self, address: u32, word: Option<u32>) -> Place {
        let line = self.listing.line_at(address);
        let near = line.and(self.listing.label_before(address));
        let distance = near.map(|near| near.distance);
        Place {
            address,
            distance,
            line,
            word,
        }
    }

    /// Returns an address as a place: its line's number, its label, and the address.
    pub(crate) fn short_at(self, address: u32) -> Short<'a> {
        Short(self, self.place_at(address, None))
    }

    /// Appends a place: its address, its label, and its line or its instruction.
    pub fn append_place(self, place: Place, text: &mut Printer) {
        write!(text, "{:08x}{}  ", place.address, Near(self, place));
        match place.line {
            Some(line) => {
                let mut lines = lines_from(self.source, line);
                text.line(line, lines.next().unwrap_or(b""));
            }
            None => append_instruction(place.word, text),
        }
    }

    /// Appends a place as a line.
    pub(crate) fn append_here(self, place: Place, text: &mut Printer) {
        self.append_place(place, text);
        text.end();
    }
}

/// Returns the lines of a source from one on, counted from 1; all of them from 0 on.
pub(crate) fn lines_from(source: &[u8], first: usize) -> Skip<Cut<'_>> {
    cut_lines(source).skip(first.saturating_sub(1))
}

/// Appends a word of memory and its instruction, or that no memory is there.
pub(crate) fn append_instruction(word: Option<u32>, text: &mut Printer) {
    let Some(word) = word else {
        return text.say("no memory is here");
    };
    write!(text, "{word:08x}  ");
    match decode(word) {
        Some(instr) => text.instruction(instr),
        None => text.say("no instruction"),
    }
}
