//! The text of refusals: why the operands of a command have no meaning.
use crate::Printer;
use crate::answer::{Refusal, Why};
use crate::command::{Command, Move, command_word};
use crate::help::Nearest;
use crate::interrupts::sign;
use crate::lines::Lines;
use crate::looks::append_count;

/// Expands to the texts of names.
macro_rules! names {
    ($($name:ident)*) => { [$(stringify!($name)),*] };
}

/// The names of the control registers that are often asked for.
static CONTROL_REGISTERS: [&str; 20] = names! {
    mstatus misa mie mip mtvec mscratch mepc mcause mtval mcycle mcycleh minstret minstreth mhartid
    pmpcfg0 pmpcfg1 pmpcfg2 pmpcfg3 pmpaddr0 pmpaddr1
};

/// What `m` wants.
const EXTENT: &str = "a number from 0 to 4096 is wanted, and w, b or t";

/// What `e` wants.
const EDGE_SOURCE: &str = "a source from 24 to 31 is wanted; `dev` shows the others";

/// What `rx` wants.
const BYTES: &str =
    "a text between quotes is wanted, in which \\n \\r \\t \\0 \\\" \\\\ may stand, or bytes of two hexadecimal digits each";

/// Why an operand is no register.
const NO_REGISTER: &str = "is no register; `p` shows a control register\n";

/// Why operands are no condition.
const NO_CONDITION: &str =
    "is none of: trap, console, a line or an address, REG or [ADDR] alone or with =, !=, <, <=, > or >= and a value, with spaces between";

/// Why operands of `b` are no place with a condition.
const NO_GUARD: &str =
    "is no place with one of these after `if`: console, a line or an address, REG or [ADDR] alone or with =, !=, <, <=, > or >= and a value, with spaces between";

/// What may stand behind the place of a breakpoint.
const NO_HITS: &str =
    "behind the place may stand `if` and a condition, then `after` and a number from 1 to 1000000000, and nothing else";

/// Why there is no next place of the C source.
const NO_MARKS: &str =
    "no label of the source is a function and a line of C, as `main.16`: tools/cc writes them; `next` goes on past a line of this source";

/// Appends that a name is no control register, and which is the nearest.
fn refuse_control_register(command: &str, name: &[u8], text: &mut Printer) {
    text.refuse(command, name, "is no control register");
    let mut nearest = Nearest::new(text.alloc(), name);
    for known in &CONTROL_REGISTERS {
        nearest.offer(known.as_bytes());
    }
    nearest.append(text);
    text.say("; docs/BOARD.md has them all\n");
}

/// Appends what a command says to its operands.
fn say_of(command: &str, sentence: &str, text: &mut Printer) {
    writeln!(text, "{command}: {sentence}");
}

/// Appends what a command wants, and where to find an example.
fn want(command: &str, wanted: &str, text: &mut Printer) {
    writeln!(text, "{command}: {wanted}; `help {command}` has an example");
}

/// Appends that an operand isn't what a command wants, and where to find an example.
fn refuse_operand(command: &str, operand: &[u8], why: &str, text: &mut Printer) {
    text.refuse(command, operand, why);
    writeln!(text, "; `help {command}` has an example");
}

/// Appends that a command wants one word.
fn want_one(command: Command, text: &mut Printer) {
    let word = command_word(command);
    match command {
        Command::Save => want(word, "one name is wanted", text),
        _ => say_of(word, "one line, address or name is wanted", text),
    }
}

/// Returns why an operand is no number of steps of a command.
fn no_steps(command: Command) -> &'static str {
    match command {
        Command::Moves(Move::Trace) => "is no number of up to 1000 steps",
        Command::Moves(Move::Back) => "is no number of up to 9999999999 steps",
        Command::Why => "isn't followed by the number of a step",
        Command::Check | Command::Profile => "is no number of up to 20000000 steps",
        _ => "is no number of up to 1000000000 steps",
    }
}

/// Returns why an operand is no condition of a command.
fn no_condition(command: Command) -> &'static str {
    let has_place = matches!(command, Command::Break);
    sign(has_place, NO_GUARD, NO_CONDITION)
}

impl Lines<'_> {
    /// Appends that a word is no address, and which name of the source is the nearest.
    fn refuse_address(self, command: &str, word: &[u8], text: &mut Printer) {
        let why = "is no line, no name of the source, no register and no number after 0x";
        text.refuse(command, word, why);
        let mut nearest = Nearest::new(text.alloc(), word);
        for (name, _) in self.listing.program.symbols() {
            nearest.offer(name.as_slice());
        }
        nearest.append(text);
        text.end();
    }

    /// Appends why the operands of a command have no meaning.
    pub(crate) fn append_refusal(self, refusal: &Refusal, text: &mut Printer) {
        let word = command_word(refusal.command);
        let operand = refusal.text.items();
        match refusal.why {
            Why::NoAddress => self.refuse_address(word, operand, text),
            Why::Missing => want(word, "an address is missing", text),
            Why::NoExtent => want(word, EXTENT, text),
            Why::NoLine(at) => writeln!(text, "{word}: no line of the source is at {at:08x}"),
            Why::NoCount => say_of(word, "the number of lines is from 0 to 1000", text),
            Why::NoRegister => text.refuse(word, operand, NO_REGISTER),
            Why::NoControlRegister => refuse_control_register(word, operand, text),
            Why::NoEdgeSource => say_of(word, EDGE_SOURCE, text),
            Why::NoSteps => refuse_operand(word, operand, no_steps(refusal.command), text),
            Why::NoCondition => refuse_operand(word, operand, no_condition(refusal.command), text),
            Why::NoHits => want(word, NO_HITS, text),
            Why::NoMarks => say_of(word, NO_MARKS, text),
            Why::NeverMet => say_of(word, "it held after no earlier step", text),
            Why::NotOne => want_one(refusal.command, text),
            Why::NoBytesThere => {
                text.say("no line with an instruction or data is there; ");
                append_count(self.listing.len(), text);
            }
            Why::NoBytes => want(word, BYTES, text),
            Why::NoLevel => want(word, "a source from 1 to 31 and 0 or 1 are wanted", text),
            Why::NoCommand => text.refuse(word, operand, "is no command; `help` shows them all\n"),
            Why::NotWritten => say_of(word, "the files can't be written", text),
            Why::TooMany => say_of(word, "at most 16 registers and words are watched", text),
        }
    }
}
