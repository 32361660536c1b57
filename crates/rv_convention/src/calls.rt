//! Open calls, and what a return from them restores.
ghost use Rattle.std.specs.Prelude.{◌≡◌, ◌-◌, ◌&&◌, ◌==◌, ◌<◌, length, nat_lt, not, slice_index, take, IfOk};
ghost use Rattle.rv_convention.specs.Convention as spec;

use rv_answers::{Entry, Many, Registers, Unrestored, push};
use rv_base::NoMemory;
use rv_isa::Reg;
use std::alloc::Global;

/// A call, or a trap, from which no step has returned yet.
#[derive(Clone, Copy)]
pub(crate) struct Open {
    pub(crate) entry: Entry,
    /// The address of the call, or of the instruction that was interrupted.
    pub(crate) from: u32,
    /// The registers at the entry.
    pub(crate) registers: Registers,
}

/// Returns whether a handler was entered.
fn is_handler(entry: Entry) -> bool
    ensures { result ≡ spec.is_handler entry }
{
    match entry {
        Entry::Call => false,
        Entry::Interrupt | Entry::Exception => true,
    }
}

/// Returns whether a return restores a register.
fn is_restored(entry: Entry, register: u8) -> bool
    ensures { result ≡ spec.is_restored entry register }
{
    match entry {
        Entry::Call => matches!(register, 2 | 8..=9 | 18..=27),
        Entry::Interrupt => true,
        Entry::Exception => false,
    }
}

/// Returns whether a register had to be restored, and wasn't.
fn is_missing(call: &Open, now: &Registers, number: u8) -> bool
    requires { number < 32 }
    ensures { result ≡ (spec.is_restored call.now.entry number
        && not (slice_index now.now number == slice_index call.now.registers number)) }
{
    is_restored(call.entry, number) && now[number as usize] != call.registers[number as usize]
}

/// Returns the registers that had to be restored and weren't, by their values then.
#[tactic(auto, using(rv_answers::proofs::Regions::none_yet, rv_answers::proofs::Regions::next_found, rv_answers::proofs::Regions::none_found))]
pub(crate) fn unrestored(
    alloc: Global,
    call: &Open,
    now: &Registers,
) -> Result<Many<Unrestored>, NoMemory>
    ensures { IfOk result (λ u. u ≡ spec.unrestored call.now now.now) }
{
    let mut missing = Vec::new(alloc);
    for number in 0..32u8 {
        if is_missing(call, now, number) {
            let one = Unrestored {
                register: Reg::of(number),
                entry: call.registers[number as usize],
                now: now[number as usize],
            };
            push(&mut missing, one)?;
        }
    }
    Ok(Many::of(missing))
}

/// Returns where a return goes on.
#[tactic(auto, unfolding(crate::specs::Convention::wanted))]
pub(crate) fn wanted(call: &Open) -> u32
    ensures { result ≡ spec.wanted call.now }
{
    if is_handler(call.entry) {
        return call.from;
    }
    call.registers[1]
}

/// Returns whether a return is one from what was entered so.
pub(crate) fn returns_from(by_mret: bool, entry: Entry) -> bool
    ensures { result ≡ spec.returns_from by_mret entry }
{
    if by_mret {
        is_handler(entry)
    } else {
        !is_handler(entry)
    }
}

/// Returns the innermost open call, which is the last.
pub(crate) fn innermost(calls: &[Open]) -> Option<Open>
    ensures { result ≡ spec.innermost calls.now }
{
    calls.last().copied()
}

/// How many open calls are known at most.
const MOST_OPEN: usize = 65_536;

/// Returns whether one more call may be opened without forgetting the others.
fn has_room(calls: &[Open]) -> bool
    ensures { result ≡ nat_lt (length calls.now) spec.most_open }
{
    calls.len() < MOST_OPEN
}

/// Forgets all calls where no other one may be opened.
pub(crate) fn make_room(calls: &mut Vec<Open>)
    ensures { calls.new.items ≡ spec.kept calls.old.items }
{
    if !has_room(calls.as_slice()) {
        calls.clear();
    }
}

/// Closes the innermost open call.
pub(crate) fn close_last(calls: &mut Vec<Open>)
    ensures { calls.new.items ≡ take (length calls.old.items - 1) calls.old.items }
{
    let outer = calls.as_slice().len().saturating_sub(1);
    calls.truncate(outer);
}

/// Returns whether a return goes on where it has to.
pub(crate) fn goes_back(call: &Open, target: u32) -> bool
    ensures { result ≡ spec.goes_back call.now target }
{
    match call.entry {
        Entry::Exception => true,
        Entry::Call => target == wanted(call),
        Entry::Interrupt => target == wanted(call),
    }
}
