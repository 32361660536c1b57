//! The source with addresses and words.
ghost use Rattle.std.specs.Prelude.{◌≡◌};
ghost use Rattle.rv_asm.specs.Seen.{seen};
ghost use Rattle.std.specs.Prelude.{◌+◌, ◌-◌, ◌/◌, min};
ghost use Rattle.rv_lab.specs.Lines.{bytes_at, line_count, row_of};
ghost use Rattle.rv_lab.specs.State.{listing};

use crate::lab::Lab;
use crate::places::line_at;
use rv_answers::Row;
use rv_asm::Listing;
use rv_monitor::word_at;

/// How many lines `l` lists where no number is given.
pub(crate) const USUAL_LINES: u64 = 11;

/// The most lines that `l` lists.
pub(crate) const MOST_LINES: u64 = 1000;

/// Some lines of the source: after which, and how many.
#[derive(Clone, Copy)]
pub(crate) struct Excerpt {
    pub(crate) after: usize,
    pub(crate) count: usize,
}

impl Excerpt {
    /// Returns some lines round one.
    pub(crate) fn round(line: usize, count: u64) -> Excerpt
        ensures { result ≡ record { after = line - count / 2 - 1; count = count } }
    {
        let count = count as usize;
        Excerpt {
            after: line.saturating_sub(count / 2).saturating_sub(1),
            count,
        }
    }
}

/// Returns the address of a line, if it has bytes.
fn bytes_at(listing: Listing, line: usize) -> Option<u32>
    ensures { result ≡ bytes_at (seen listing.entry) line }
{
    if listing.bytes(line).is_empty() {
        return None;
    }
    listing.address(line)
}

/// Returns the number of lines.
pub(crate) fn line_count(listing: Listing) -> usize
    ensures { result ≡ line_count (seen listing.entry) }
{
    listing.len()
}

impl Lab {
    /// Returns whether pc is in the bytes of a line.
    #[tactic(auto, unfolding(crate::specs::Lines::row_of))]
    fn is_here(&self, line: usize) -> bool
        ensures { result ≡ (row_of self.now line).is_here }
    {
        match line_at(self.listing(), self.board().pc()) {
            Some(here) => here == line,
            None => false,
        }
    }

    /// Returns whether a breakpoint is at the address of a line.
    #[tactic(auto, unfolding(crate::specs::Lines::row_of))]
    fn is_marked(&self, line: usize) -> bool
        ensures { result ≡ (row_of self.now line).is_marked }
    {
        match bytes_at(self.listing(), line) {
            Some(address) => self.recording.session().has_break(address),
            None => false,
        }
    }

    /// Returns the first word of a line, if it has four bytes.
    #[tactic(auto, unfolding(crate::specs::Lines::row_of))]
    fn line_word(&self, line: usize) -> Option<u32>
        ensures { result ≡ (row_of self.now line).word }
    {
        if self.listing().bytes(line).len() < 4 {
            return None;
        }
        word_at(self.board(), bytes_at(self.listing(), line)?)
    }

    /// Returns the row of a line.
    #[tactic(auto, unfolding(crate::specs::Lines::row_of))]
    pub(crate) fn row(&self, line: usize) -> Row
        ensures { result ≡ row_of self.now line }
    {
        Row {
            number: line,
            is_here: self.is_here(line),
            is_marked: self.is_marked(line),
            address: bytes_at(self.listing(), line),
            word: self.line_word(line),
            has_more: self.listing().bytes(line).len() > 4,
        }
    }

    /// Keeps which line an excerpt ended with.
    pub(crate) fn keep_listed(&mut self, excerpt: Excerpt)
        ensures { self.new ≡ record self.old { listed = min (excerpt.after + excerpt.count) (line_count (listing self.old)) } }
    {
        let end = excerpt.after.saturating_add(excerpt.count);
        self.last.listed = end.min(line_count(self.listing()));
    }
}
