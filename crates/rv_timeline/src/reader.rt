//! Reads the lines of a timed list.
ghost use Rattle.std.specs.Prelude.{◌≡◌, ◌∷◌, ◌++◌, [], true, IfOk, OnOk, nat_lt};
ghost use Rattle.std.specs.Option.{option_map};
ghost use Rattle.rv_base.specs.Words.{words};
ghost use Rattle.rv_timeline.specs.Timed.{received, driven, inputs_of, timed_line, never_falls};
ghost use Rattle.rv_timeline.specs.Support.Reading.{Leaves, latest_step, with_inputs, with_line};

use crate::number::{level, source, step};
use crate::{Input, TimedInput};
use rv_base::{LINE_LIMIT, NoMemory, begins_comment, first_word, has_word, hex_byte};

/// Appends an input.
fn append(out: &mut Vec<TimedInput>, step: u64, input: Input) -> Result<(), NoMemory>
    ensures { OnOk result (out.new.items ≡ out.old.items ++ record { step = step; input = input } ∷ []) }
{
    out.extend_from_slice(&[TimedInput { step, input }])?;
    Ok(())
}

/// Reads the words following `rx`, one or more bytes, and appends an input for each. Returns whether they can be
/// read, as do the functions below.
#[tactic(auto, using(crate::proofs::Inputs::received_none, crate::proofs::Inputs::received_all, crate::proofs::Inputs::received_more, crate::proofs::Inputs::received_bad, crate::proofs::Inputs::received_end))]
fn read_bytes(step: u64, text: &[u8], out: &mut Vec<TimedInput>) -> Result<bool, NoMemory>
    ensures { IfOk result (λ read. Leaves out.new.items read
        (with_inputs out.old.items step (received (words text.now)))) }
{
    if !has_word(text) {
        return Ok(false);
    }
    let mut rest = text;
    while let Some((word, more)) = first_word(rest) {
        let Some(byte) = hex_byte(word) else {
            return Ok(false);
        };
        append(out, step, Input::Rx(byte))?;
        rest = more;
    }
    Ok(true)
}

/// Reads the words following `line`: a source and its level.
pub fn line_input(text: &[u8]) -> Option<Input>
    ensures { option_map (λ input. input ∷ []) result ≡ driven (words text.now) }
{
    let (number, rest) = first_word(text)?;
    let (value, rest) = first_word(rest)?;
    if has_word(rest) {
        return None;
    }
    let source = source(number)?;
    let high = level(value)?;
    Some(Input::Line { source, high })
}

/// Reads the words following `line`, and appends the input.
fn read_level(step: u64, text: &[u8], out: &mut Vec<TimedInput>) -> Result<bool, NoMemory>
    ensures { IfOk result (λ read. Leaves out.new.items read
        (with_inputs out.old.items step (driven (words text.now)))) }
{
    let Some(input) = line_input(text) else {
        return Ok(false);
    };
    append(out, step, input)?;
    Ok(true)
}

/// Reads the words following a step, and appends their inputs.
#[tactic(auto, unfolding(crate::specs::Timed::inputs_of))]
fn read_inputs(step: u64, text: &[u8], out: &mut Vec<TimedInput>) -> Result<bool, NoMemory>
    ensures { IfOk result (λ read. Leaves out.new.items read
        (with_inputs out.old.items step (inputs_of (words text.now)))) }
{
    let Some((kind, rest)) = first_word(text) else {
        return Ok(false);
    };
    match kind {
        b"rx" => read_bytes(step, rest, out),
        b"line" => read_level(step, rest, out),
        _ => Ok(false),
    }
}

/// Returns the step of the last input, or 0 if there is none.
#[tactic(auto, using(crate::proofs::Inputs::latest_is))]
fn latest_step(inputs: &[TimedInput]) -> u64
    ensures { result ≡ latest_step inputs.now }
{
    match inputs {
        [] => 0,
        [.., last] => last.step,
    }
}

/// Returns whether a step is below that of the last input.
fn falls(step: u64, before: &[TimedInput]) -> bool
    ensures { result ≡ nat_lt step (latest_step before.now) }
{
    step < latest_step(before)
}

/// Reads a line, and appends its inputs.
#[tactic(auto, unfolding(crate::specs::Timed::timed_line), using(crate::proofs::Inputs::line_steps))]
pub fn read_line(line: &[u8], out: &mut Vec<TimedInput>) -> Result<bool, NoMemory>
    requires { never_falls out.old.items ≡ true }
    ensures { IfOk result (λ read. Leaves out.new.items read (with_line out.old.items (timed_line line.now))) }
{
    if line.len() > LINE_LIMIT {
        return Ok(false);
    }
    let Some((first, rest)) = first_word(line) else {
        return Ok(true);
    };
    if begins_comment(first) {
        return Ok(true);
    }
    let Some(step) = step(first) else {
        return Ok(false);
    };
    if falls(step, out) {
        return Ok(false);
    }
    read_inputs(step, rest, out)
}
