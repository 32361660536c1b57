//! The states of a function, by the ways that its code can go.
ghost use Rattle.std.specs.Prelude.{◌≡◌, IfOk, length};

use crate::code::{Code, address_of, index_of};
use crate::state::State;
use rv_isa::{Fields, Operation};
use std::alloc::{AllocError, Global};

/// The states before the words of a function: the first one is that in which it begins.
#[derive(Drop)]
pub struct Walk {
    /// The index of the function's first word.
    start: usize,
    states: Vec<State>,
    /// For each word the index of the state before it, if the function's code can go there.
    reached: Vec<Option<usize>>,
}

/// Where code is still to be followed: a word, and the index of the state before it.
#[derive(Clone, Copy)]
struct Way {
    index: usize,
    state: usize,
}

/// Returns whether the next instruction follows: a call comes back.
fn goes_on(fields: &Fields) -> bool {
    match fields.operation {
        Operation::Jal => fields.rd.number() == 1,
        Operation::Jalr => fields.rd.number() == 1,
        Operation::Mret => false,
        _ => true,
    }
}

/// Returns how far a jump within a function goes.
fn jump(fields: &Fields) -> Option<i32> {
    match fields.operation {
        Operation::Jal => {
            if fields.rd.number() == 1 {
                None
            } else {
                Some(fields.imm)
            }
        }
        Operation::Beq => Some(fields.imm),
        Operation::Bne => Some(fields.imm),
        Operation::Blt => Some(fields.imm),
        Operation::Bge => Some(fields.imm),
        Operation::Bltu => Some(fields.imm),
        Operation::Bgeu => Some(fields.imm),
        _ => None,
    }
}

impl Walk {
    ghost use Rattle.std.specs.Prelude.{◌≡◌, OnOk, length};

    /// Returns the number of words.
    pub fn len(&self) -> usize
        ensures { result ≡ length self.now.reached.items }
    {
        self.reached.len()
    }

    /// Returns the state before a word, counted from the function's first one, if its code can go there.
    pub fn state_before(&self, index: usize) -> Option<State> {
        let state = self.reached.get(index).copied()??;
        self.states.get(state).copied()
    }

    /// Returns the index, among all, of the state after an instruction.
    fn state_after(&mut self, state: usize, fields: &Fields) -> Result<usize, AllocError>
        ensures { OnOk result (length self.new.reached.items ≡ length self.old.reached.items) }
    {
        let old = match self.states.get(state) {
            Some(old) => *old,
            None => return Ok(state),
        };
        let new = old.after(fields);
        if new == old {
            return Ok(state);
        }
        let index = self.states.len();
        self.states.push(new)?;
        Ok(index)
    }

    /// Adds the ways from an instruction, by the state before it.
    fn add_ways(&mut self, way: Way, fields: &Fields, ways: &mut Vec<Way>) -> Result<(), AllocError>
        ensures { OnOk result (length self.new.reached.items ≡ length self.old.reached.items) }
    {
        let state = self.state_after(way.state, fields)?;
        if goes_on(fields) {
            let index = way.index.wrapping_add(1);
            ways.push(Way { index, state })?;
        }
        if let Some(distance) = jump(fields) {
            let target = address_of(way.index).wrapping_add(distance.cast_unsigned());
            if let Some(index) = index_of(target) {
                ways.push(Way { index, state })?;
            }
        }
        Ok(())
    }

    /// Notes the state before a word that wasn't reached yet, and adds the ways from there. A word that is no
    /// instruction traps, and the handler may go on after it.
    fn visit(&mut self, code: Code<'_>, way: Way, ways: &mut Vec<Way>) -> Result<(), AllocError>
        ensures { OnOk result (length self.new.reached.items ≡ length self.old.reached.items) }
    {
        let place = way.index.wrapping_sub(self.start);
        if place >= self.reached.len() || self.reached[place].is_some() {
            return Ok(());
        }
        self.reached[place] = Some(way.state);
        match code.instruction(way.index) {
            Some(instr) => self.add_ways(way, instr.fields(), ways),
            None => {
                let index = way.index.wrapping_add(1);
                let state = way.state;
                ways.push(Way { index, state })?;
                Ok(())
            }
        }
    }
}

/// Follows the code of a function of that many words from its first one on.
pub fn follow(alloc: Global, code: Code<'_>, start: usize, count: usize) -> Result<Walk, AllocError>
    ensures { IfOk result (λ w. length w.reached.items ≡ count) }
{
    let states = vec![in alloc; State::first(); 1]?;
    let reached = vec![in alloc; None; count]?;
    let mut walk = Walk {
        start,
        states,
        reached,
    };
    let mut ways = Vec::new(alloc);
    ways.push(Way {
        index: start,
        state: 0,
    })?;
    // Each word is noted once, and adds two ways at most.
    for _ in 0..count.saturating_mul(2).saturating_add(1) {
        let Some(way) = ways.pop() else {
            break;
        };
        walk.visit(code, way, &mut ways)?;
    }
    Ok(walk)
}
