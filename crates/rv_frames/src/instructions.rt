//! The instructions of a table of frames, which say how a function's caller goes on.
//!
//! DWARF 4, section 6.4.2 and section 7.23; columns by the RISC-V ELF psABI, "DWARF Register Numbers".
ghost use Rattle.std.specs.Prelude.{◌+◌, ◌*◌, ◌≤◌, IfOk, OnOk, length};

use crate::code::bytes_of;
use crate::places::Entry;
use crate::state::{Rule, SAVED, SP, Stack, State};
use crate::walk::Walk;
use std::alloc::{AllocError, Global};

/// Where a trap handler's caller goes on: at mepc, and 4 bytes later after an exception, which the highest bit of
/// mcause tells: DW_CFA_val_expression, the column of mepc, 16 bytes, DW_OP_bregx of mepc, the same of mcause,
/// DW_OP_const1u 31, shr, lit1, xor, lit2, shl, plus.
const AFTER_TRAP: &[u8] = &[
    0x16, 0xc1, 0x26, 16, 0x92, 0xc1, 0x26, 0, 0x92, 0xc2, 0x26, 0, 0x08, 31, 0x25, 0x31, 0x27,
    0x32, 0x24, 0x22,
];

/// The same where the handler has written mepc: DW_CFA_same_value.
const AT_MEPC: &[u8] = &[0x08, 0xc1, 0x26];

/// The outermost function has no caller: DW_CFA_undefined of ra.
const NO_CALLER: &[u8] = &[0x07, 1];

/// Appends a number in base 128, the lowest digit first, whose last byte is below 64.
fn append_number(out: &mut Vec<u8>, number: u32) -> Result<(), AllocError>
    ensures { OnOk result (length out.new.items ≤ length out.old.items + 6) }
{
    let mut rest = number;
    for digit in 0..5usize {
        if rest < 64 {
            break;
        }
        out.extend_from_slice(&[(rest % 128 + 128) as u8])?;
        rest /= 128;
    }
    // What is left of 32 bits is below 64.
    out.extend_from_slice(&[(rest % 64) as u8])
}

/// Appends a number as two's complement in base 128.
fn append_signed(out: &mut Vec<u8>, number: i32) -> Result<(), AllocError>
    ensures { OnOk result (length out.new.items ≤ length out.old.items + 6) }
{
    let bits = number.cast_unsigned();
    if number >= 0 {
        return append_number(out, bits);
    }
    let digits = [
        (bits % 128 + 128) as u8,
        ((bits >> 7) % 128 + 128) as u8,
        ((bits >> 14) % 128 + 128) as u8,
        ((bits >> 21) % 128 + 128) as u8,
        ((bits >> 28) + 112) as u8,
    ];
    out.extend_from_slice(&digits)
}

/// Appends the instruction that says where a register is.
fn append_rule(out: &mut Vec<u8>, register: u8, rule: Rule) -> Result<(), AllocError>
    ensures { OnOk result (length out.new.items ≤ length out.old.items + 8) }
{
    match rule {
        // DW_CFA_same_value
        Rule::Same => out.extend_from_slice(&[0x08, register]),
        // DW_CFA_offset_extended_sf
        Rule::Below(depth) => {
            out.extend_from_slice(&[0x11, register])?;
            append_signed(out, depth)
        }
        // DW_CFA_register
        Rule::In(other) => out.extend_from_slice(&[0x09, register, other]),
        // DW_CFA_undefined
        Rule::Lost => out.extend_from_slice(&[0x07, register]),
    }
}

/// Appends the instructions for the registers whose places have changed.
fn append_rules(out: &mut Vec<u8>, old: &State, new: &State) -> Result<(), AllocError>
    ensures { OnOk result (length out.new.items ≤ length out.old.items + 104) }
{
    for slot in 0..13 {
        let rule = new.rules[slot];
        if rule != old.rules[slot] {
            append_rule(out, SAVED[slot], rule)?;
        }
    }
    Ok(())
}

/// Appends the instruction that says how far the caller's sp is from sp, if that has changed and is known.
fn append_offset(out: &mut Vec<u8>, old: Option<i32>, new: Option<i32>) -> Result<(), AllocError>
    ensures { OnOk result (length out.new.items ≤ length out.old.items + 7) }
{
    let Some(offset) = new else {
        return Ok(());
    };
    if old == new {
        return Ok(());
    }
    if offset >= 0 {
        // DW_CFA_def_cfa_offset
        out.extend_from_slice(&[0x0e])?;
        append_number(out, offset.cast_unsigned())
    } else {
        // DW_CFA_def_cfa_offset_sf: in words, downwards
        out.extend_from_slice(&[0x13])?;
        append_signed(out, -(offset.div_euclid(4)))
    }
}

/// Appends the instruction that says where the caller's sp is, if that has changed.
fn append_stack(out: &mut Vec<u8>, old: Stack, new: Stack) -> Result<(), AllocError>
    ensures { OnOk result (length out.new.items ≤ length out.old.items + 4) }
{
    if old == new {
        return Ok(());
    }
    match new {
        // DW_CFA_val_offset
        Stack::Own => out.extend_from_slice(&[0x14, SP, 0]),
        // DW_CFA_register, the column of mscratch
        Stack::Exchanged => out.extend_from_slice(&[0x09, SP, 0xc0, 0x26]),
        // DW_CFA_undefined
        Stack::Lost => out.extend_from_slice(&[0x07, SP]),
    }
}

/// Appends the instruction that goes on by a number of words.
fn append_advance(out: &mut Vec<u8>, words: usize) -> Result<(), AllocError>
    ensures { OnOk result (length out.new.items ≤ length out.old.items + 5) }
{
    let bytes = bytes_of(words);
    if bytes < 64 {
        // DW_CFA_advance_loc
        out.extend_from_slice(&[(0x40 + bytes) as u8])
    } else {
        // DW_CFA_advance_loc4
        out.extend_from_slice(&[0x04])?;
        out.extend_from_slice(&bytes.to_le_bytes())
    }
}

/// Appends the instructions that a function begins with.
fn append_beginning(out: &mut Vec<u8>, entry: Entry) -> Result<(), AllocError>
    ensures { OnOk result (length out.new.items ≤ length out.old.items + 20) }
{
    match entry {
        Entry::Start => out.extend_from_slice(NO_CALLER),
        Entry::Resumed => out.extend_from_slice(NO_CALLER),
        Entry::Handler => out.extend_from_slice(AFTER_TRAP),
        Entry::Called => Ok(()),
    }
}

/// Appends the instructions that lead from a state to the next one of a function.
fn append_change(
    out: &mut Vec<u8>,
    entry: Entry,
    old: &State,
    new: &State,
) -> Result<(), AllocError>
    ensures { OnOk result (length out.new.items ≤ length out.old.items + 135) }
{
    append_offset(out, old.offset, new.offset)?;
    append_stack(out, old.stack, new.stack)?;
    match entry {
        Entry::Start => Ok(()),
        Entry::Resumed => Ok(()),
        Entry::Called => append_rules(out, old, new),
        Entry::Handler => {
            append_rules(out, old, new)?;
            if old.wrote_mepc == new.wrote_mepc {
                return Ok(());
            }
            out.extend_from_slice(if new.wrote_mepc { AT_MEPC } else { AFTER_TRAP })
        }
    }
}

/// Returns the instructions of a function.
pub fn instructions_of(alloc: Global, entry: Entry, walk: &Walk) -> Result<Vec<u8>, AllocError>
    ensures { IfOk result (λ v. length v.items ≤ 20 + 140 * length walk.now.reached.items) }
{
    let mut out = Vec::new(alloc);
    append_beginning(&mut out, entry)?;
    let mut at = 0;
    let mut state = State::first();
    for index in 0..walk.len() {
        if let Some(new) = walk.state_before(index) {
            if new != state {
                append_advance(&mut out, index.saturating_sub(at))?;
                append_change(&mut out, entry, &state, &new)?;
                at = index;
                state = new;
            }
        }
    }
    Ok(out)
}
