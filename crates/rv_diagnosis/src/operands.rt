//! Words that the language doesn't have (E4), and operands that a word doesn't take (E5).
use crate::foreign::{FOREIGN, MNEMONICS};
use crate::names::Nearest;
use crate::spot::{Spot, begins_with_digit, run_of, skip_blanks};
use crate::text::{Draft, Text, in_words};
use rv_base::{decimal, look_up};
use rv_isa::{csr_named, operation_named, reg_named};
use rv_source::{Body, Role, Shape, read_line_form, shape_of, word_at};
use std::alloc::Global;

/// The most shapes of a word.
const MOST_SHAPES: usize = 4;

/// The number of pseudo-instructions and directives, or more.
const MOST_WORDS: usize = 80;

/// Returns whether the language has a word.
pub(crate) fn is_word(word: &[u8]) -> bool {
    if operation_named(word).is_some() {
        return true;
    }
    (0..MOST_WORDS)
        .filter_map(word_at)
        .any(|other| other.as_bytes() == word)
}

/// Returns the word of the language that is nearest to one; nothing if none is near.
fn nearest_word<'a>(alloc: Global, word: &'a [u8]) -> &'a [u8] {
    let mut nearest = Nearest::new(word);
    for name in &MNEMONICS {
        nearest.offer(alloc, name.as_bytes());
    }
    for index in 0..MOST_WORDS {
        if let Some(name) = word_at(index) {
            nearest.offer(alloc, name.as_bytes());
        }
    }
    nearest.name
}

/// What is said of a word that the language doesn't have.
pub(crate) const NO_WORD: &str = "`^` is neither an instruction nor a directive";

/// Says that the language doesn't have a word.
pub(crate) fn unknown_word(alloc: Global, spot: Spot, draft: &mut Draft) {
    let word = spot.piece;
    draft.tell(in_words(NO_WORD, ""), word);
    if let Some(advice) = look_up(&FOREIGN, word) {
        draft.advice.say(advice);
        return;
    }
    let lower = word.to_ascii_lowercase(alloc);
    if let Ok(lower) = &lower
        && is_word(lower)
    {
        draft
            .advice
            .fill("write `^`: words are in lower case", lower);
        return;
    }
    let next = run_of(skip_blanks(spot.after));
    if is_word(next) {
        draft
            .advice
            .fill("if it is a label write `^:`, with a colon", word);
        return;
    }
    let near = nearest_word(alloc, word);
    if !near.is_empty() {
        draft.advice.fill("did you mean `^`?", near);
    } else if word.starts_with(b".") {
        draft.advice.say("for data there are .word, .half, .byte, .asciz and .space");
    }
}

/// Returns what an operand in a role is.
fn noun_of(role: Role) -> &'static str {
    match role {
        Role::Rd | Role::Rs1 | Role::Rs2 | Role::Both => "register",
        Role::Imm | Role::Value | Role::Second => "value",
        Role::Upper => "value or %hi(value)",
        Role::Memory => "value(register)",
        Role::Csr => "control register",
        Role::Before | Role::After => "set of the letters iorw",
        Role::Symbol => "name",
        Role::Text => "string",
    }
}

/// Returns the role of operand `index` in a shape.
fn role_at(shape: Shape, index: usize) -> Option<Role> {
    match shape {
        Shape::These(roles) => roles.get(index).copied(),
        Shape::Each(role) => Some(role),
    }
}

/// Returns the shape of a word that takes as many operands, or else its first.
fn shape_for(word: &[u8], count: usize) -> Option<Shape> {
    for index in 0..MOST_SHAPES {
        if let Some(Shape::These(roles)) = shape_of(word, index)
            && roles.len() == count
        {
            return Some(Shape::These(roles));
        }
    }
    shape_of(word, 0)
}

/// Returns the role of operand `index` of a word that has `count` operands.
fn role_of(word: &[u8], count: usize, index: usize) -> Option<Role> {
    role_at(shape_for(word, count)?, index)
}

/// Appends a shape of a word.
fn append_shape(word: &[u8], shape: Shape, out: &mut Text) {
    out.say("`");
    out.put(word);
    match shape {
        Shape::These(roles) => {
            let mut separator = " ";
            for role in roles {
                out.say(separator);
                out.say(noun_of(*role));
                separator = ", ";
            }
        }
        Shape::Each(role) => {
            out.say(" ");
            out.say(noun_of(role));
            out.say(", ..");
        }
    }
    out.say("`");
}

/// Appends what a word takes.
fn append_shapes(word: &[u8], out: &mut Text) {
    let mut separator = "write ";
    for index in 0..MOST_SHAPES {
        if let Some(shape) = shape_of(word, index) {
            out.say(separator);
            append_shape(word, shape, out);
            separator = " or ";
        }
    }
}

/// Words that take a register, with the ones that take a value there.
static WITH_VALUE: [(&str, &str); 21] = [
    ("add", "; with a value: `addi`"),
    ("sub", "; with a value: `addi` and the negative value"),
    ("and", "; with a value: `andi`"),
    ("or", "; with a value: `ori`"),
    ("xor", "; with a value: `xori`"),
    ("sll", "; with a value: `slli`"),
    ("srl", "; with a value: `srli`"),
    ("sra", "; with a value: `srai`"),
    ("slt", "; with a value: `slti`"),
    ("sltu", "; with a value: `sltiu`"),
    ("mv", "; with a value: `li`"),
    ("csrw", "; with a value: `csrwi`"),
    ("csrs", "; with a value: `csrsi`"),
    ("csrc", "; with a value: `csrci`"),
    ("csrrw", "; with a value: `csrrwi`"),
    ("csrrs", "; with a value: `csrrsi`"),
    ("csrrc", "; with a value: `csrrci`"),
    ("jr", "; with an offset: `jalr x0,offset(register)`"),
    ("jalr", "; or `jalr ra,offset(register)`"),
    ("li", "; the address of a label: `la`"),
    ("fence", "; the letters in the order i, o, r, w"),
];

/// Whether a text is a name, and not a number.
fn is_name(piece: &[u8]) -> bool {
    run_of(piece).len() == piece.len() && !piece.is_empty() && !begins_with_digit(piece)
}

/// Whether a text is a number that has more than five bits.
fn is_large(piece: &[u8]) -> bool {
    match piece {
        [b'0', b'x', _] | [b'0', b'x', b'0' | b'1', _] => false,
        [first, ..] => first.is_ascii_digit() && decimal(31, piece).is_none(),
        [] => false,
    }
}

/// Says which word takes what was written, if one does, and returns whether it was said.
fn other_word(word: &[u8], piece: &[u8], draft: &mut Draft) -> bool {
    if word == b"csrr".as_slice() && csr_named(piece).is_some() {
        draft
            .advice
            .fill("write to a control register by `csrw ^,register`", piece);
        return true;
    }
    if word == b"jalr".as_slice() && is_name(piece) && !is_register(piece) {
        draft.advice.fill("call a function by `call ^`", piece);
        return true;
    }
    if word.starts_with(b"csr") && is_large(piece) {
        draft
            .advice
            .fill("load `^` by `li` into a register, and write that", piece);
        return true;
    }
    false
}

/// The names of the registers.
const REGISTERS: &str =
    "registers are x0 to x31, or zero, ra, sp, gp, tp, t0 to t6, s0 to s11, a0 to a7; ";

/// Says which operand a word doesn't take, and what is wanted there.
fn wrong_operand(word: &[u8], count: usize, wrong: usize, piece: &[u8], draft: &mut Draft) {
    let out = &mut draft.sentence;
    match role_of(word, count, wrong.saturating_sub(1)) {
        Some(role) if noun_of(role) == "register" && is_name(piece) => {
            out.fill("`^` is no register", piece);
            if draft.advice.is_empty() {
                draft.advice.say(REGISTERS);
            }
        }
        Some(role) => {
            out.say("operand ");
            out.count(wrong);
            out.fill(" of `^` has to be a ", word);
            out.say(noun_of(role));
            out.fill(", and `^` is none", piece);
        }
        None => {
            out.fill("`^` is an operand too many for ", piece);
            out.fill("`^`", word);
        }
    }
}

/// Says which operands a word doesn't take.
pub(crate) fn bad_operands(
    alloc: Global,
    line: &[u8],
    spot: Spot,
    wrong: usize,
    draft: &mut Draft,
) {
    let Ok(read) = read_line_form(alloc, line) else {
        return;
    };
    let Body::Word { word, operands } = read.body() else {
        return;
    };
    let word = word.bytes();
    let count = operands.as_slice().len();
    let is_told = wrong > 0 && other_word(word, spot.piece, draft);
    if wrong == 0 {
        draft.sentence.fill("operands of `^` are missing", word);
    } else {
        wrong_operand(word, count, wrong, spot.piece, draft);
    }
    if is_told {
        return;
    }
    if is_word(run_of(spot.piece)) && wrong > 0 {
        draft
            .advice
            .say("write each statement on a line of its own; ");
    }
    append_shapes(word, &mut draft.advice);
    if wrong > 0
        && let Some(more) = look_up(&WITH_VALUE, word)
    {
        draft.advice.say(more);
    }
}

/// Returns whether a text is the name of a register.
pub(crate) fn is_register(text: &[u8]) -> bool {
    reg_named(text).is_some()
}
