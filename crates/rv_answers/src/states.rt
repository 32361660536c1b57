//! What control registers, devices and protection hold.
ghost use Rattle.std.specs.Prelude.{◌≡◌, ◌==◌, ◌<◌, ◌≤◌, ◌++◌, [], ◌∷◌, IfOk, OnOk, filter, map, not, length};
ghost use Rattle.std.specs.FinSet as set;
ghost use Rattle.std.specs.List.{range_with_len};
ghost use Rattle.rv_isa.specs.Number.{flag};
ghost use Rattle.rv_plic.specs.Sources.{sources};
ghost use Rattle.rv_pmp.specs.Entry.{matching_code};
ghost use Rattle.rv_pmp.specs.Pmp.{entry_at, matches};
ghost use Rattle.rv_answers.specs.States as spec;
ghost use Rattle.rv_answers.specs.States.{regions};

use crate::many::{Many, push};
use crate::values::{Bits, Clock, Port, Range, Region, Rights, SourceState};
use rv_base::NoMemory;
use rv_mmio::{Serial, Timer};
use rv_plic::{Plic, Source};
use rv_pmp::{Access, Entry, Matching, Mode, Pmp, Span};
use std::alloc::Global;

/// Returns whether a bit of a word is 1.
pub fn has_bit(word: u32, place: u32) -> bool
    requires { place < 32 }
    ensures { result ≡ flag word place }
{
    (word >> place) % 2 == 1
}

/// Returns what the bits of a control register say after a number of traps, if they have names.
#[tactic(auto, unfolding(crate::specs::States::bits_of))]
pub fn bits_of(traps: usize, csr: u16, word: u32) -> Option<Bits>
    ensures { result ≡ spec.bits_of traps csr word }
{
    match csr {
        0x300 => Some(Bits::Status {
            mie: has_bit(word, 3),
            mpie: has_bit(word, 7),
            mpp: has_bit(word, 11),
            mprv: has_bit(word, 17),
            tw: has_bit(word, 21),
        }),
        0x304 | 0x344 => Some(Bits::Lines {
            software: has_bit(word, 3),
            timer: has_bit(word, 7),
            external: has_bit(word, 11),
        }),
        0x342 if traps > 0 => Some(Bits::Cause(word)),
        _ => None,
    }
}

/// Returns the timer.
pub fn clock_of(timer: &Timer) -> Clock
    ensures { result ≡ spec.clock_of timer.now }
{
    Clock {
        time: timer.time(),
        compare: timer.compare(),
        is_due: timer.due(),
        software: timer.software(),
    }
}

/// Returns the serial port.
pub fn port_of(serial: &Serial) -> Port
    ensures { result ≡ spec.port_of serial.now }
{
    Port {
        waiting: serial.waiting(),
        sent: serial.console().len(),
        overrun: serial.overrun(),
    }
}

/// The offsets of the interrupt controller's registers.
const PENDING: u32 = 0x1000;

const ENABLES: u32 = 0x2000;

const THRESHOLD: u32 = 0x20_0000;

/// Returns the threshold of the interrupt controller.
#[tactic(auto, using(crate::proofs::Sources::threshold_word))]
pub fn threshold(plic: &Plic) -> u32
    ensures { result ≡ plic.now.threshold }
{
    plic.peek(THRESHOLD)
}

/// Returns a source of the interrupt controller.
#[tactic(auto, unfolding(crate::specs::States::source_of), using(crate::proofs::Sources::pending_word, crate::proofs::Sources::enabled_word, crate::proofs::Sources::priority_word))]
fn source_of(source: Source, plic: &Plic) -> SourceState
    ensures { result ≡ spec.source_of plic.now source }
{
    let number = u32::from(source.number());
    SourceState {
        source: number,
        is_high: plic.is_high(source),
        is_pending: has_bit(plic.peek(PENDING), number),
        is_claimed: plic.is_outstanding(source),
        is_enabled: has_bit(plic.peek(ENABLES), number),
        priority: plic.peek(4 * number),
        edges: plic.edges(source),
    }
}

/// Returns all sources of the interrupt controller.
#[tactic(auto, using(crate::proofs::Sources::no_items, crate::proofs::Sources::next_source))]
pub fn sources_of(alloc: Global, plic: &Plic) -> Result<Many<SourceState>, NoMemory>
    ensures { IfOk result (λ s. s ≡ map (spec.source_of plic.now) sources) }
{
    let mut states = Vec::new(alloc);
    for number in 1..32u8 {
        if let Some(source) = Source::new(number) {
            push(&mut states, source_of(source, plic))?;
        }
    }
    Ok(Many::of(states))
}

/// The end of the addresses of 34 bits.
const END: u64 = 1 << 34;

/// Returns what an entry grants a mode.
fn rights_of(entry: Entry, mode: Mode) -> Rights
    ensures { result ≡ spec.rights_of entry mode }
{
    Rights {
        read: entry.grants(mode, Access::Read),
        write: entry.grants(mode, Access::Write),
        execute: entry.grants(mode, Access::Execute),
    }
}

/// Returns the bytes that an entry matches.
fn range_of(number: usize, pmp: &Pmp) -> Option<Range>
    ensures { result ≡ spec.range_of (spec.bytes_of pmp.now number) }
{
    let Span { first, end } = pmp.span(number);
    let end = end.min(END);
    if end <= first {
        return None;
    }
    let last = end - 1;
    Some(Range { first, last })
}

/// Returns an entry of protection.
#[tactic(auto, unfolding(crate::specs::States::region_of))]
pub fn region_of(number: usize, pmp: &Pmp) -> Region
    ensures { result ≡ spec.region_of pmp.now number }
{
    let entry = pmp.entry(number);
    Region {
        entry: number,
        range: range_of(number, pmp),
        user: rights_of(entry, Mode::User),
        machine: rights_of(entry, Mode::Machine),
        is_locked: entry.locked,
    }
}

/// Returns whether an entry matches addresses.
fn is_on(entry: Entry) -> bool
    ensures { result ≡ not (matching_code entry.matching == 0) }
{
    !matches!(entry.matching, Matching::Off)
}

/// Returns the entries that are on.
#[tactic(auto, using(crate::proofs::Regions::none_yet, crate::proofs::Regions::next_found, crate::proofs::Regions::none_found))]
pub fn regions_of(alloc: Global, pmp: &Pmp) -> Result<Many<Region>, NoMemory>
    ensures { IfOk result (λ r. r ≡ regions pmp.now) }
{
    let mut found = Vec::new(alloc);
    for number in 0..16usize {
        if is_on(pmp.entry(number)) {
            push(&mut found, region_of(number, pmp))?;
        }
    }
    Ok(Many::of(found))
}
