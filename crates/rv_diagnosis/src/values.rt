//! Names and values: faults of the second and third phase (E6 to E11).
use crate::diagnosis::{Diagnosis, Field};
use crate::names::survey_of;
use crate::operands::is_register;
use crate::spot::{Spot, begins_with_digit, has_digits_alone, word_in};
use crate::text::{Draft, in_words};
use rv_asm::FaultKind;
use std::alloc::Global;

/// Says that a name is defined a second time.
pub(crate) fn duplicate(spot: Spot, line: usize, first: usize, draft: &mut Draft) {
    draft.sentence.fill("`^` is already defined, ", spot.piece);
    if first == line {
        draft.sentence.say("on this line");
    } else {
        draft.sentence.say("on line ");
        draft.sentence.count(first);
    }
    draft.advice.say(
        "choose another name, or a local label such as `1:`, which may be defined again and again",
    );
}

/// Says that a reference to a local label leads nowhere.
fn local_label(spot: Spot, kind: FaultKind, draft: &mut Draft) {
    let (number, letter) = spot.piece.split_at(spot.piece.len().saturating_sub(1));
    match (letter, kind) {
        (b"f", FaultKind::NotConstant) => {
            draft.tell(
                in_words(
                    "the value has to be known on its line, and `^` is on a later one",
                    "load an address by `la`",
                ),
                spot.piece,
            );
        }
        (b"f", _) => draft.tell(
            in_words(
                "no later line has the label `^:`",
                "write it, or refer back by `^b`",
            ),
            number,
        ),
        _ => draft.tell(
            in_words(
                "neither this line nor an earlier one has the label `^:`",
                "write it, or refer forward by `^f`",
            ),
            number,
        ),
    }
}

/// Returns what to write where a register stands for a value.
fn for_register(word: &[u8]) -> &'static str {
    match word {
        b"call" => "call the function at the address in it by `jalr ^`",
        _ => "copy a register by `mv`, add it by `add`, jump to it by `jr`, and load from `(^)`",
    }
}

/// Says that a name has no value where it stands.
pub(crate) fn unknown(
    alloc: Global,
    source: &[u8],
    spot: Spot,
    diagnosis: &Diagnosis,
    draft: &mut Draft,
) {
    let name = spot.piece;
    if begins_with_digit(name) {
        local_label(spot, diagnosis.kind, draft);
        return;
    }
    let found = survey_of(alloc, source, name);
    if let Some(first) = found.first {
        draft.sentence.fill("`^` has no value here: ", name);
        if first.line < diagnosis.line {
            draft.sentence.say("its definition is faulty, on line ");
            draft.advice.say("mend that line first");
        } else if first.is_label {
            draft.sentence.say("it is a label further down, on line ");
            draft
                .advice
                .fill("load an address by `la`, as in `la a0,^`", name);
        } else {
            draft.sentence.say("it is defined further down, on line ");
            draft.advice.say("move its `.equ` further up");
        }
        draft.sentence.count(first.line);
        return;
    }
    if is_register(name) {
        draft.tell(
            in_words(
                "`^` is a register, and a value is wanted here",
                for_register(word_in(spot.before)),
            ),
            name,
        );
        return;
    }
    draft.sentence.fill("`^` isn't defined", name);
    if name.iter().all(|byte| byte.is_ascii_hexdigit()) {
        draft
            .advice
            .fill("a hexadecimal number is written `0x^`; else ", name);
    }
    if found.nearest.name.is_empty() {
        draft
            .advice
            .fill("define it by a label `^:` or by `.equ ^,VALUE`", name);
    } else {
        draft.advice.fill("did you mean `^`?", found.nearest.name);
    }
}

/// Says that the address of an instruction is no multiple of 4.
pub(crate) fn misplaced(spot: Spot, address: u32, draft: &mut Draft) {
    draft.sentence.fill("the address of `^`, 0x", spot.piece);
    draft.sentence.put(&rv_base::word_digits(address));
    draft.sentence.say(", is no multiple of 4");
    draft
        .advice
        .say("write `.align 2` on a line before it, after the data");
}

/// Returns what a field holds, and what to write for a value that it can't.
fn words_of(field: Field, value: i64) -> (&'static str, &'static str) {
    match field {
        Field::Immediate if value >= 0x8000_0000 => (
            "the value of twelve bits",
            "load the address by `la t0,label`, and use `(t0)` or add it",
        ),
        Field::Immediate => (
            "the value of twelve bits",
            "load the value by `li` into a register, and use that",
        ),
        Field::Upper => (
            "the value of twenty bits",
            "write these bits alone, as in `lui a0,0x10000`, or `%hi(value)`; `li` loads all of it",
        ),
        Field::Amount => (
            "the amount of a shift",
            "shift by at most 31: a word has 32 bits",
        ),
        Field::CsrImmediate => (
            "the value of five bits",
            "load the value by `li` into a register, and use `csrw`, `csrs` or `csrc`",
        ),
        Field::Branch => (
            "the target of a branch",
            "branch to an even address within 4096 bytes, or over a `j`",
        ),
        Field::Jump => (
            "the target of a jump",
            "jump to an even address within 1 MiB, or by `tail` or `call`",
        ),
        Field::Word => ("a value of four bytes", "write a value of 32 bits"),
        Field::Half => ("a value of two bytes", "write `.word` for four bytes"),
        Field::Byte => (
            "a value of one byte",
            "write `.half` or `.word` for more bytes",
        ),
        Field::Size => (
            "the size of a space",
            "the image has at most 16777216 bytes",
        ),
        Field::Power => (
            "the exponent of two",
            "`.align 2` is a multiple of 4; write a multiple itself by `.balign`",
        ),
        Field::Multiple => ("the multiple", "write a power of two from 1 to 4096"),
    }
}

/// Appends the range of a field.
fn append_range(field: Field, between: &str, draft: &mut Draft) {
    let (low, high) = field.range();
    draft.sentence.say(between);
    draft.sentence.number(low);
    draft.sentence.say(" to ");
    draft.sentence.number(high);
}

/// Says that a target is too far away, or at an odd address.
fn too_far(spot: Spot, field: Field, distance: i64, draft: &mut Draft) {
    let (low, high) = field.range();
    draft.sentence.fill("`^` is ", spot.piece);
    draft.sentence.number(distance);
    draft.sentence.say(" bytes away, ");
    if low <= distance && distance <= high {
        draft.sentence.say("which is odd");
    } else {
        append_range(field, "and the reach is ", draft);
    }
    if has_digits_alone(spot.piece) {
        draft.advice.fill(
            "a target is an address: write a label, `. + ^` for a distance, or `1b` for a local label",
            spot.piece,
        );
    } else {
        draft.advice.say(words_of(field, distance).1);
    }
}

/// Says that a value isn't in its range.
pub(crate) fn out_of_range(spot: Spot, field: Field, value: i64, draft: &mut Draft) {
    if matches!(field, Field::Branch | Field::Jump) {
        too_far(spot, field, value, draft);
        return;
    }
    let (noun, advice) = words_of(field, value);
    draft.sentence.say(noun);
    draft.sentence.fill(" is `^`", spot.piece);
    if !has_digits_alone(spot.piece) {
        draft.sentence.say(", which is ");
        draft.sentence.number(value);
    }
    let (low, high) = field.range();
    if low <= value && value <= high {
        draft.sentence.say(", and has to be a power of two");
    } else {
        append_range(field, ", and has to be in ", draft);
    }
    draft.advice.say(advice);
}
