//! The breaches of a run.
ghost use Rattle.std.specs.Prelude.{◌≡◌, IfOk, OnOk};
ghost use Rattle.rv_convention.specs.Convention as spec;
ghost use Rattle.rv_convention.specs.Convention.{after_turn, breach_of, calls_after, none_yet, noted};
ghost use Rattle.rv_convention.specs.declared.turn.Turn.TheVariants as turns;

use crate::calls::{
    Open, close_last, goes_back, innermost, make_room, returns_from, unrestored, wanted,
};
use crate::follow::{Follower, follow_run};
use crate::registers::registers_of;
use crate::turn::Turn;
use rv_answers::{Breach, Checked, Deviation, Entry, Many, Return, push};
use rv_base::NoMemory;
use rv_board::BootedBoard;
use rv_recording::Recording;
use std::alloc::Global;
use std::marker::Model;

/// What is known after some steps of a run.
#[derive(Drop)]
struct Tracker {
    calls: Vec<Open>,
    breaches: Vec<Breach>,
    steps: u64,
    has_halted: bool,
}

impl Model for Tracker {
    ghost use Rattle.rv_convention.specs.Convention.{Progress};

    ghost Value = { Progress };

    ghost view = { λ t. record { calls = t.calls.items; breaches = t.breaches.items; steps = t.steps; has_halted = t.has_halted } };
}

/// Opens a call, which a step made that began at an address.
fn open(
    calls: &mut Vec<Open>,
    entry: Entry,
    address: u32,
    now: &BootedBoard,
) -> Result<(), NoMemory>
    ensures { OnOk result (calls.new.items ≡ calls_after calls.old.items address now.now (turns.Enters entry)) }
{
    let call = Open {
        entry,
        from: address,
        registers: registers_of(now),
    };
    make_room(calls);
    push(calls, call)
}

/// Returns the breach of a return from an open call, if it is one.
#[tactic(auto, unfolding(crate::specs::Convention::return_breach))]
fn return_breach(
    alloc: Global,
    step: u64,
    address: u32,
    now: &BootedBoard,
    call: &Open,
) -> Result<Option<Breach>, NoMemory>
    ensures { IfOk result (λ b. b ≡ spec.return_breach step address now.now call.now) }
{
    let registers = unrestored(alloc, call, &registers_of(now))?;
    let target = now.pc();
    if goes_back(call, target) && registers.items().is_empty() {
        return Ok(None);
    }
    let back = Return {
        entry: call.entry,
        from: call.from,
        wanted: wanted(call),
        target,
        registers,
    };
    Ok(Some(Breach {
        step,
        address,
        deviation: Deviation::Return(back),
    }))
}

/// Follows a return, and returns its breach, if it is one.
#[tactic(auto, unfolding(crate::specs::Convention::calls_after, crate::specs::Convention::breach_of))]
fn close(
    alloc: Global,
    calls: &mut Vec<Open>,
    step: u64,
    address: u32,
    now: &BootedBoard,
    by_mret: bool,
) -> Result<Option<Breach>, NoMemory>
    ensures calls { OnOk result (calls.new.items ≡ calls_after calls.old.items address now.now (turns.Returns by_mret)) }
    ensures breach { IfOk result (λ b. b ≡ breach_of calls.old.items step address now.now (turns.Returns by_mret)) }
{
    let Some(call) = innermost(calls.as_slice()) else {
        calls.clear();
        return Ok(None);
    };
    if !returns_from(by_mret, call.entry) {
        calls.clear();
        return Ok(None);
    }
    if goes_back(&call, now.pc()) {
        close_last(calls);
    } else {
        calls.clear();
    }
    return_breach(alloc, step, address, now, &call)
}

/// Follows a step by what it means, and returns its breach, if it is one.
#[tactic(auto, unfolding(crate::specs::Convention::calls_after, crate::specs::Convention::breach_of))]
fn follow_turn(
    alloc: Global,
    calls: &mut Vec<Open>,
    step: u64,
    address: u32,
    now: &BootedBoard,
    turn: Turn,
) -> Result<Option<Breach>, NoMemory>
    ensures calls { OnOk result (calls.new.items ≡ calls_after calls.old.items address now.now turn) }
    ensures breach { IfOk result (λ b. b ≡ breach_of calls.old.items step address now.now turn) }
{
    match turn {
        Turn::Enters(entry) => {
            open(calls, entry, address, now)?;
            Ok(None)
        }
        Turn::Returns(by_mret) => close(alloc, calls, step, address, now, by_mret),
        Turn::Below(accessed) => Ok(Some(Breach {
            step,
            address,
            deviation: Deviation::Below(accessed),
        })),
        Turn::Other => Ok(None),
    }
}

/// Returns whether a breach at an address is among some.
fn is_noted(breaches: &[Breach], address: u32) -> bool
    ensures { result ≡ spec.is_noted breaches.now address }
{
    let [first, rest @ ..] = breaches else {
        return false;
    };
    first.address == address || is_noted(rest, address)
}

/// Notes a breach, if there is one, and none at its address was noted.
#[tactic(auto, unfolding(crate::specs::Convention::noted))]
fn note(breaches: &mut Vec<Breach>, breach: Option<Breach>) -> Result<(), NoMemory>
    ensures { OnOk result (breaches.new.items ≡ noted breaches.old.items breach) }
{
    let Some(breach) = breach else {
        return Ok(());
    };
    if is_noted(breaches.as_slice(), breach.address) {
        return Ok(());
    }
    match breaches.push(breach) {
        Ok(()) => Ok(()),
        Err(_) => Err(NoMemory),
    }
}

impl Tracker {
    /// Returns what is known before the first step.
    fn new(alloc: Global) -> Tracker
        ensures { result ≡ none_yet }
    {
        Tracker {
            calls: Vec::new(alloc),
            breaches: Vec::new(alloc),
            steps: 0,
            has_halted: false,
        }
    }
}

impl Follower for Tracker {
    ghost follows = { after_turn };

    ghost steps = { λ p. p.steps };

    #[tactic(auto, unfolding(crate::specs::Convention::after_turn))]
    fn add(
        &mut self,
        alloc: Global,
        address: u32,
        turn: Turn,
        now: &BootedBoard,
    ) -> Result<(), NoMemory> {
        let step = self.steps + 1;
        let breach = follow_turn(alloc, &mut self.calls, step, address, now, turn)?;
        note(&mut self.breaches, breach)?;
        self.steps = step;
        self.has_halted = now.halted().is_some();
        Ok(())
    }
}

/// Returns the breaches among the first `most` steps of a recording, also among those that weren't taken yet. The
/// recording stays as it is.
///
/// # Errors
///
/// `NoMemory` if memory runs out.
#[tactic(auto, using(crate::proofs::Following::told))]
pub fn check(alloc: Global, recording: &Recording, most: u64) -> Result<Checked, NoMemory>
    ensures { IfOk result (λ c. c ≡ spec.checked recording.now most) }
{
    let mut run = recording.begun_again(most)?;
    let Tracker {
        calls: _,
        breaches,
        steps,
        has_halted,
    } = follow_run(alloc, Tracker::new(alloc), &mut run, most)?;
    Ok(Checked {
        steps,
        has_halted,
        breaches: Many::of(breaches),
    })
}
