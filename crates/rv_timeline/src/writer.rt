//! Writes timed lists.
ghost use Rattle.std.specs.Prelude.{◌≡◌, ◌++◌, ◌∷◌, [], ℕ, true, if◌then◌else◌, Ok, OnOk, IfOk, codes, decimal, nat_le};
ghost use Rattle.std.specs.List.{list_all};
ghost use Rattle.rv_timeline.specs.Support.Reading.{is_input, line_text};
ghost use Rattle.rv_timeline.specs.Text.{input_text, list_text};
ghost use Rattle.rv_timeline.specs.Timed.{never_falls, IsRead};

use crate::{Input, TimedInput};
use itoa::Buffer;
use rv_base::{NoMemory, byte_digits};
use rv_plic::Source;
use std::alloc::Global;

/// Appends a number in decimal.
fn append_decimal(number: u64, text: &mut Vec<u8>) -> Result<(), NoMemory>
    ensures { OnOk result (text.new.items ≡ text.old.items ++ decimal number) }
{
    let mut buffer = Buffer::new();
    text.extend_from_slice(buffer.format(number).as_bytes())?;
    Ok(())
}

/// Returns the digit of a level.
fn level_digit(high: bool) -> &'static [u8]
    ensures { result.now ≡ (if high then codes "1" else codes "0") }
{
    if high {
        return b"1";
    }
    b"0"
}

/// Appends a received byte.
fn append_byte(byte: u8, text: &mut Vec<u8>) -> Result<(), NoMemory>
    ensures text { OnOk result (text.new.items ≡ text.old.items ++ input_text (Input.Rx byte)) }
    ensures range { is_input (Input.Rx byte) ≡ true }
{
    text.extend_from_slice(b"rx ")?;
    text.extend_from_slice(&byte_digits(byte))?;
    Ok(())
}

/// Appends a level of the line of a source.
fn append_level(source: Source, high: bool, text: &mut Vec<u8>) -> Result<(), NoMemory>
    ensures text { OnOk result (text.new.items ≡ text.old.items ++ input_text (Input.Line source high)) }
    ensures range { OnOk result (is_input (Input.Line source high) ≡ true) }
{
    text.extend_from_slice(b"line ")?;
    append_decimal(u64::from(source.number()), text)?;
    text.extend_from_slice(b" ")?;
    text.extend_from_slice(level_digit(high))?;
    Ok(())
}

/// Appends an input, as it stands after its step.
fn append_input(input: Input, text: &mut Vec<u8>) -> Result<(), NoMemory>
    ensures text { OnOk result (text.new.items ≡ text.old.items ++ input_text input) }
    ensures range { OnOk result (is_input input ≡ true) }
{
    match input {
        Input::Rx(byte) => append_byte(byte, text),
        Input::Line { source, high } => append_level(source, high, text),
    }
}

/// Appends the line of an input.
fn append_line(timed: TimedInput, text: &mut Vec<u8>) -> Result<(), NoMemory>
    ensures text { OnOk result (text.new.items ≡ text.old.items ++ line_text timed) }
    ensures range { OnOk result (is_input timed.input ≡ true) }
{
    append_decimal(timed.step, text)?;
    text.extend_from_slice(b" ")?;
    append_input(timed.input, text)?;
    text.extend_from_slice(b"\n")?;
    Ok(())
}

/// Returns the text of inputs, a line for each. It is read as exactly these inputs, if their steps never fall
/// and have ten digits at most.
///
/// # Errors
///
/// `NoMemory` if memory runs out.
#[tactic(auto, using(crate::proofs::Texts::reads, std::proofs::lemmas::List::take_all))]
pub fn list_text(alloc: Global, inputs: &[TimedInput]) -> Result<Vec<u8>, NoMemory>
    ensures text { IfOk result (λ text. text.items ≡ list_text inputs.now) }
    ensures read { IfOk result (λ text. never_falls inputs.now ≡ true
        → list_all (λ x. nat_le x.step 9999999999) inputs.now ≡ true → IsRead text.items (Ok inputs.now)) }
{
    let mut text = Vec::new(alloc);
    for timed in inputs {
        append_line(*timed, &mut text)?;
    }
    Ok(text)
}
