//! The lines of an accepted source with their addresses and their bytes, and its labels.
ghost use Rattle.std.specs.Prelude.{◌≡◌, ◌≤◌, ◌<◌, ◌+◌, ◌-◌, ◌++◌, ℕ, suc, List, true, false, nat_le, filter, get_or, None, Ok, IfOk, OnOk, length};
ghost use Rattle.std.specs.List.{All, flat_map, last_or, range_with_len, slice_range};
ghost use Rattle.std.specs.List.Sorted.{IsNonDecreasing, IsPartitionPoint};
ghost use Rattle.std.specs.Option.{option_map};
ghost use Rattle.rv_base.specs.Limits.{ram_base};
ghost use Rattle.rv_base.specs.Lines.{lines};
ghost use Rattle.rv_program.specs.Faults.{Gives};
ghost use Rattle.rv_asm.specs.Assembly.{all_parsed, line_bytes};
ghost use Rattle.rv_asm.specs.Lines.{listed, bytes_of, end_of, listing_of};
ghost use Rattle.rv_asm.specs.Layout.{labels_in};
ghost use Rattle.rv_asm.specs.Support.Steps.{address, labels, up_to, LabelsRise};
ghost use Rattle.rv_asm.specs.Support.Statements.{last_of};

use crate::assembler::assemble_noting;
use crate::notes::{Notes, PlacedName};
use crate::{AsmFault, Program};
use rv_base::RAM_BASE;
use rv_source::Name;
use std::alloc::Global;
use std::marker::Model;

/// Where the lines of an accepted source lie, and its labels.
pub struct Places {
    /// The address of each line, and the one following them all.
    addresses: Vec<u32>,
    labels: Vec<PlacedName>,
}

// Hand-written: a derived `Drop` would be proved anew at each exit (docs/PROVING.md).
impl Drop for Places {
    fn drop(self) {
        let Places { addresses, labels } = self;
    }
}

impl Model for Places {
    ghost use Rattle.rv_asm.specs.Lines.{Located};
    ghost use Rattle.rv_asm.specs.Support.Steps.{LieInOrder};

    ghost Value = { Located };

    ghost view = { λ p. record { addresses = p.addresses.items; labels = p.labels.items } };

    ghost invariant = { λ p. LieInOrder (record { addresses = p.addresses.items; labels = p.labels.items }) };
}

impl Places {
    ghost use Rattle.std.specs.Prelude.{◌≡◌};
    ghost use Rattle.rv_asm.specs.Support.Steps.{LieInOrder};

    fn of(notes: Notes) -> Places
        requires { LieInOrder notes }
        ensures { result ≡ notes }
    {
        let Notes {
            addresses,
            labels,
            origins: _,
        } = notes;
        Places { addresses, labels }
    }
}

/// Returns how many numbers are no greater than `most`.
fn count_up_to(numbers: &[u32], most: u32) -> usize
    requires { IsNonDecreasing numbers.now }
    ensures within { result ≤ length numbers.now }
    ensures point { IsPartitionPoint (λ n. nat_le n most ≡ true) (λ n. nat_le n most ≡ false) numbers.now result }
    ensures only { (m : ℕ) → 0 < m → get_or numbers.now (m - 1) 0 ≤ most → most < get_or numbers.now m 0 → m ≡ result }
{
    numbers.partition_point(|number| *number <= most)
}

/// Returns how many labels are at an address or before it.
fn count_labels(labels: &[PlacedName], address: u32) -> usize
    requires { LabelsRise labels.now }
    ensures within { result ≤ length labels.now }
    ensures before { (k : ℕ) → (d : List ℕ × ℕ) → k < result → (get_or labels.now k d).1 ≤ address }
    ensures last { last_or None (filter (λ l. nat_le l.1 address) labels.now) ≡ last_of labels.now result }
{
    labels.partition_point(|label| label.address <= address)
}

/// A label at an address or before it.
#[derive(Drop)]
pub struct NearLabel<'a> {
    pub name: Name<'a>,
    /// The number of bytes from the label to the address.
    pub distance: u32,
}

/// The lines of an accepted source, counted from 1, with their addresses and their bytes, and its labels. The
/// program and the places of its lines are lent.
#[derive(Clone, Copy)]
pub struct Listing<'a> {
    pub program: &'a Program,
    pub places: &'a Places,
}

impl<'a> Listing<'a> {
    ghost use Rattle.std.specs.Prelude.{◌≡◌, ◌+◌, ◌-◌, ◌<◌, ◌≤◌, ◌&&◌, ℕ, List, nat_le, nat_lt, filter, length, None, is_some, IfSome, IfNone};
    ghost use Rattle.std.specs.List.{last_or};
    ghost use Rattle.std.specs.Option.{option_map};
    ghost use Rattle.rv_base.specs.Limits.{ram_base};
    ghost use Rattle.rv_asm.specs.Lines.{address_of, bytes_of, end_of, HasByteAt};
    ghost use Rattle.rv_asm.specs.Seen.{seen};

    /// Returns the number of lines.
    pub fn len(&self) -> usize
        ensures { result + 1 ≡ length (seen self.now).addresses }
    {
        let places = self.places;
        places.addresses.len() - 1
    }

    /// Returns the address of what a line stands for; `None` if there is no such line. A line without bytes
    /// has the address of what follows it.
    pub fn address(&self, line: usize) -> Option<u32>
        ensures { result ≡ address_of (seen self.now) line }
    {
        let places = self.places;
        if line > 0 && line < places.addresses.len() {
            Some(places.addresses[line - 1])
        } else {
            None
        }
    }

    /// Returns the bytes of a line in the image; none if there is no such line.
    pub fn bytes(&self, line: usize) -> &'a [u8]
        ensures { result.now ≡ bytes_of (seen self.now) line }
    {
        let places = self.places;
        if line > 0 && line < places.addresses.len() {
            let start = (places.addresses[line - 1] - RAM_BASE) as usize;
            let end = (places.addresses[line] - RAM_BASE) as usize;
            part(self.program.bytes(), start, end)
        } else {
            &[]
        }
    }

    /// Returns the number of the line that has a byte at an address; `None` if none has, and the address lies
    /// before or behind all lines then.
    pub fn line_at(&self, address: u32) -> Option<usize>
        ensures found { IfSome result (HasByteAt (seen self.now) address) }
        ensures none { IfNone result ((m : ℕ) → HasByteAt (seen self.now) address m → ⊥) }
        ensures only { IfSome result (λ n. (m : ℕ) → HasByteAt (seen self.now) address m → m ≡ n) }
        ensures within { is_some result ≡ (nat_le ram_base address && nat_lt address (end_of (seen self.now))) }
    {
        let places = self.places;
        let count = count_up_to(&places.addresses, address);
        if count > 0 && count < places.addresses.len() {
            Some(count)
        } else {
            None
        }
    }

    /// Returns the labels with their addresses, in order of definition.
    pub fn labels(&self) -> &'a [PlacedName]
        ensures { result.now ≡ (seen self.now).labels }
    {
        let places = self.places;
        places.labels.as_slice()
    }

    /// Returns the last label at an address or before it, with the distance from it.
    #[tactic(auto, using(crate::proofs::Cuts::last_some))]
    pub fn label_before(&self, address: u32) -> Option<NearLabel<'a>>
        ensures { option_map {U = List ℕ × ℕ} (λ n. (n.name, n.distance)) result ≡ option_map (λ l. (l.0, address - l.1)) (last_or None (filter (λ l. nat_le l.1 address) (seen self.now).labels)) }
    {
        let places = self.places;
        let count = count_labels(&places.labels, address);
        if count == 0 {
            return None;
        }
        let label = &places.labels[count - 1];
        let distance = address - label.address;
        Some(NearLabel {
            name: Name::new(&label.name),
            distance,
        })
    }
}

/// Returns the elements of a slice from one on up to another, of those that there are.
fn part(bytes: &[u8], start: usize, end: usize) -> &[u8]
    requires { start ≤ end }
    ensures { result.now ≡ slice_range bytes.now start end }
{
    let end = end.min(bytes.len());
    &bytes[start.min(end)..end]
}

/// Returns the program of a source, and the places of its lines: 4 bytes for each line and some 50 for each
/// label are kept beside the program.
///
/// # Errors
///
/// The fault of `assemble`. `OutOfMemory`, at line 0, may come in place of any result.
#[tactic(auto, using(crate::proofs::Lined::list_steps))]
pub fn list(alloc: Global, source: &[u8]) -> Result<(Program, Places), AsmFault>
    ensures value { Gives (λ l. listing_of l.0 l.1) result (listed source.now) }
    ensures bytes { IfOk result (λ l. (k : ℕ) → k < length (lines source.now) → line_bytes (all_parsed (lines source.now)) k ≡ Ok (bytes_of (listing_of l.0 l.1) (suc k))) }
    ensures image { IfOk result (λ l. flat_map (λ k. bytes_of (listing_of l.0 l.1) (suc k)) (range_with_len 0 (length (lines source.now))) ≡ l.0.bytes) }
    ensures end { IfOk result (λ l. end_of (listing_of l.0 l.1) ≡ ram_base + length l.0.bytes) }
{
    let (program, notes) = assemble_noting(alloc, source, Some(Notes::new(alloc)?))?;
    match notes {
        Some(notes) => Ok((program, Places::of(notes))),
        None => unreachable!(),
    }
}
