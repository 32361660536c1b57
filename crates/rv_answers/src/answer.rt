//! The answer to a command.
use crate::command::Command;
use crate::convention::Checked;
use crate::explained::{Explanation, Origin};
use crate::frames::Backtrace;
use crate::many::Many;
use crate::moves::{Breakpoint, Breakpoints, Cleared, Given, Run, Saved, Stepped, Trace, Watch};
use crate::profile::Profiled;
use crate::values::{
    ControlValue, Devices, Dump, Edges, Place, RegisterFile, RegisterValue, Row, Standing, Trap,
};

/// Why the operands of a command have no meaning.
#[derive(Clone, Copy)]
pub enum Why {
    /// The word is no address.
    NoAddress,
    /// A word that is an address is missing.
    Missing,
    /// The words are no number of bytes or words, and no way to show them.
    NoExtent,
    /// No line of the source is at the address.
    NoLine(u32),
    /// The words are no number of lines.
    NoCount,
    /// The text names no register.
    NoRegister,
    /// The word names no control register.
    NoControlRegister,
    /// The text is no number of a source that is triggered by edges.
    NoEdgeSource,
    /// The text is no number of steps.
    NoSteps,
    /// The text is no condition.
    NoCondition,
    /// What stands behind the place or the condition is no number of hits.
    NoHits,
    /// The source has no places of C.
    NoMarks,
    /// The condition held after no earlier step.
    NeverMet,
    /// There is no word, or more than one.
    NotOne,
    /// No line with an instruction or data has this number or a larger one.
    NoBytesThere,
    /// The text is no bytes to receive.
    NoBytes,
    /// The text is no level of an interrupt line.
    NoLevel,
    /// The text names no command.
    NoCommand,
    /// The files can't be written.
    NotWritten,
    /// As many registers and words are watched as may be.
    TooMany,
}

/// A command whose operands have no meaning.
#[derive(Drop)]
pub struct Refusal {
    /// The command.
    pub command: Command,
    /// The operand that has none.
    pub text: Many<u8>,
    /// Why it has none.
    pub why: Why,
}

/// What a command answers.
pub enum Answer {
    /// Nothing: of a comment, of `q`, and of an empty line that repeats nothing
    Nothing,
    /// `monitor`: what rvboard's monitor prints
    Monitor(Many<u8>),
    /// `w`
    Where(Standing),
    /// `r`
    Registers(RegisterFile),
    /// `r` of a register
    Register(RegisterValue),
    /// `p`
    ControlRegister(ControlValue),
    /// `m`
    Memory(Dump),
    /// `i`
    Instruction(Place),
    /// `l`, and an empty line after it
    List(Many<Row>),
    /// `l` where it would begin behind the last line, with the number of lines
    BehindLast(usize),
    /// An empty line after `l` where no line follows
    WasLast,
    /// `b` alone
    Breakpoints(Breakpoints),
    /// `t`: the last traps, the oldest first
    Traps(Many<Trap>),
    /// `e`
    Edges(Edges),
    /// `dev`
    Devices(Devices),
    /// A run that isn't over, with the number of steps that the board has taken
    Running(u64),
    /// A run that is over
    Ended(Run),
    /// A single step
    Stepped(Stepped),
    /// A single step that can't be taken: the board has halted, or the lab takes no more
    Stuck(Standing),
    /// `trace`
    Traced(Trace),
    /// `u`
    Back(Standing),
    /// `b` with an address: a breakpoint is there
    Break(Breakpoint),
    /// `d`
    Cleared(Cleared),
    /// `rx` and `line`
    Given(Given),
    /// `save`
    Saved(Saved),
    /// `why`
    Explained(Explanation),
    /// `why` of a register or a word
    Origin(Origin),
    /// `bt`
    Backtrace(Backtrace),
    /// `check`
    Checked(Checked),
    /// `profile`
    Profiled(Profiled),
    /// `display`
    Display(Watch),
    /// `watch` with a register or a word: it is watched
    Watch(Watch),
    /// `watch` alone
    Watches(Many<Watch>),
    /// `unwatch`, with the number of registers and words that were watched and are no more
    Unwatched(usize),
    /// `help`, of a command or of all
    Help(Option<Command>),
    /// The first word of the line is no command.
    NoCommand(Many<u8>),
    /// The line has more than 1,024 bytes.
    TooLong,
    /// The operands of a command have no meaning.
    Refused(Refusal),
}

// Hand-written: a derived `Drop` would be proved anew at each exit (docs/PROVING.md).
impl Drop for Answer {
    fn drop(self) {
        match self {
            Answer::Nothing | Answer::WasLast | Answer::TooLong => {}
            Answer::Where(_) | Answer::Stuck(_) | Answer::Back(_) => {}
            Answer::Registers(_) | Answer::Register(_) | Answer::ControlRegister(_) => {}
            Answer::Memory(_) | Answer::Instruction(_) => {}
            Answer::List(_) | Answer::BehindLast(_) => {}
            Answer::Breakpoints(_) | Answer::Break(_) | Answer::Cleared(_) => {}
            Answer::Traps(_) | Answer::Explained(_) | Answer::Origin(_) => {}
            Answer::Edges(_) | Answer::Devices(_) => {}
            Answer::Running(_) | Answer::Ended(_) | Answer::Stepped(_) | Answer::Traced(_) => {}
            Answer::Given(_) | Answer::Saved(_) | Answer::Monitor(_) => {}
            Answer::Backtrace(_) | Answer::Checked(_) | Answer::Profiled(_) => {}
            Answer::Display(_) | Answer::Watch(_) | Answer::Watches(_) | Answer::Unwatched(_) => {}
            Answer::Help(_) | Answer::NoCommand(_) | Answer::Refused(_) => {}
        }
    }
}
