//! Inputs.
ghost use Rattle.std.specs.Prelude.{◌≡◌, IfOk};
ghost use Rattle.std.specs.Option.{option_map};
ghost use Rattle.rv_base.specs.Words.{words};
ghost use Rattle.rv_timeline.specs.Timed.{all_of, byte_input};
ghost use Rattle.rv_operands.specs.Operands.{bytes_inputs, unescaped};
ghost use Rattle.rv_operands.specs.Support.Words.{Reads, escape_of, text_inputs};

use crate::word::trimmed;
use rv_answers::{escapes, push};
use rv_base::{NoMemory, first_word, hex_byte, look_up};
use rv_timeline::Input;
use rv_tokens::between;
use std::alloc::Global;

/// Reads words of two hexadecimal digits, and appends an input for each. Returns whether all can be read.
fn read_words(text: &[u8], out: &mut Vec<Input>) -> Result<bool, NoMemory>
    ensures { IfOk result (Reads out.old.items out.new.items (all_of byte_input (words text.now))) }
{
    let Some((word, rest)) = first_word(text) else {
        return Ok(true);
    };
    let Some(byte) = hex_byte(word) else {
        return Ok(false);
    };
    push(out, Input::Rx(byte))?;
    read_words(rest, out)
}

/// Returns the byte that an escape stands for, by what follows its backslash.
fn escaped(byte: u8) -> Option<u8>
    ensures { result ≡ escape_of byte }
{
    look_up(escapes(), &[byte])
}

/// Reads a text with escapes, and appends an input for each byte. Returns whether all can be read.
fn read_text(text: &[u8], out: &mut Vec<Input>) -> Result<bool, NoMemory>
    ensures { IfOk result (Reads out.old.items out.new.items (text_inputs (unescaped text.now))) }
{
    let [first, rest @ ..] = text else {
        return Ok(true);
    };
    if *first != b'\\' {
        push(out, Input::Rx(*first))?;
        return read_text(rest, out);
    }
    let [byte, rest @ ..] = rest else {
        return Ok(false);
    };
    let Some(byte) = escaped(*byte) else {
        return Ok(false);
    };
    push(out, Input::Rx(byte))?;
    read_text(rest, out)
}

/// Reads the operands of `rx`: a text between quotes, or words of two hexadecimal digits.
///
/// # Errors
///
/// `NoMemory` if memory runs out.
#[tactic(auto, unfolding(crate::specs::Operands::bytes_inputs))]
pub fn read_bytes_inputs(alloc: Global, operands: &[u8]) -> Result<Option<Vec<Input>>, NoMemory>
    ensures { IfOk result (λ read. option_map (λ inputs. inputs.items) read ≡ bytes_inputs operands.now) }
{
    let mut inputs = Vec::new(alloc);
    let can_read = match between(b'"', b'"', trimmed(operands)) {
        Some(text) => read_text(text, &mut inputs)?,
        None => read_words(operands, &mut inputs)?,
    };
    Ok(can_read.then_some(inputs))
}
