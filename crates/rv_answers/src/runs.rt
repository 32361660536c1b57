//! The text of what commands answer that move the board.
use crate::Printer;
use crate::interrupts::sign;
use crate::lines::{Lines, Short};
use crate::looks::{append_halt, append_stuck};
use crate::many::Many;
use crate::moves::{Aim, Change, Ending, Run, Step, Stepped, Target, Trace, Watch};
use crate::registers::{Value, register_name};
use crate::shown::Count;
use crate::values::{RegisterValue, Standing};
use std::fmt::{self, Display, Formatter};

/// How many changed registers are told in a line.
const IN_LINE: usize = 8;

/// Appends the registers that a command changed, each after two blanks or a comma.
fn append_changed(changed: &Many<RegisterValue>, text: &mut Printer) {
    for (told, one) in changed.items().iter().enumerate() {
        let before = match told {
            0 => "  ",
            _ if told % IN_LINE == 0 => ",\n  ",
            _ => ", ",
        };
        write!(text, "{before}{one}");
    }
}

/// Appends what a step did: a trap, and the registers that it changed.
fn append_outcome(step: &Step, text: &mut Printer) {
    if let Some(trap) = step.trap {
        write!(text, "  {trap}");
    }
    append_changed(&step.changed, text);
    text.end();
}

impl Display for Target {
    fn fmt<W: fmt::Write>(&self, f: &mut Formatter<W>) -> fmt::Result {
        match *self {
            Target::Register(register) => f.write_str(register_name(register)),
            Target::Word(address) => write!(f, "[{address:08x}]"),
        }
    }
}

impl Display for Watch {
    fn fmt<W: fmt::Write>(&self, f: &mut Formatter<W>) -> fmt::Result {
        write!(f, "{} = {}", self.target, Value(self.value))
    }
}

/// Appends what a step changed of what is watched, as the rest of a line.
fn append_changes(changes: &[Change], text: &mut Printer) {
    let mut sign = ":";
    for change in changes {
        let (target, now, before) = (change.target, Value(change.value), Value(change.before));
        write!(text, "{sign} {target} = {now}, before {before}");
        sign = ";";
    }
    text.end();
}

/// Appends that registers and words are watched, each as a line.
pub(crate) fn append_watches(watches: &[Watch], text: &mut Printer) {
    for watch in watches {
        writeln!(text, "watching {watch}");
    }
}

/// Appends what is watched, or that nothing is.
pub(crate) fn append_all_watches(watches: &[Watch], text: &mut Printer) {
    if watches.is_empty() {
        text.say("nothing is watched; `help watch` shows how to watch\n");
    }
    append_watches(watches, text);
}

/// Appends how many registers and words are watched no more.
pub(crate) fn append_unwatched(count: usize, text: &mut Printer) {
    if count == 0 {
        return text.say("unwatch: nothing of it is watched\n");
    }
    writeln!(text, "{} ended", Count(count as u64, "watch"));
}

/// Appends that as many steps were taken as were asked for.
fn append_limit(aim: Aim, steps: Count, text: &mut Printer) {
    let state = match aim {
        Aim::Steps => return writeln!(text, "stopped after {steps}"),
        Aim::Breakpoint => "still running",
        Aim::Return => "not returned",
        Aim::Mark | Aim::Trap(_) | Aim::Console | Aim::Arrival | Aim::Watch(_) => "not reached",
    };
    writeln!(text, "{state} after {steps}; c goes on");
}

impl Lines<'_> {
    /// Appends that the board has halted, or where it stands.
    fn append_rest(self, standing: Standing, text: &mut Printer) {
        if standing.halted.is_some() {
            return append_halt(standing, text);
        }
        if standing.here.word.is_none() {
            text.say("no memory is at pc: the last trap met no handler; type `why`\n");
        }
        self.append_here(standing.here, text);
    }

    /// Appends what was reached: what a step changed of what is watched, or else the goal.
    fn append_reached(self, aim: Aim, changes: &[Change], text: &mut Printer) {
        if !changes.is_empty() {
            return append_changes(changes, text);
        }
        match aim {
            Aim::Watch(watch) => write!(text, ": {watch}"),
            Aim::Trap(Some(trap)) => write!(text, ": {trap}, at{}", Short(self, trap.place)),
            _ => {}
        }
        text.end();
    }

    /// Appends why a run is over, what it changed, and where the board stands.
    pub(crate) fn append_run(self, run: &Run, text: &mut Printer) {
        let steps = Count(run.steps, "step");
        let watched = run.watched.items();
        match run.ending {
            Ending::Stuck => return append_stuck(run.standing, text),
            Ending::Halted if watched.is_empty() => {}
            Ending::Halted => {
                text.say("watched");
                append_changes(watched, text);
            }
            Ending::Breakpoint => {
                let is_aim = matches!(run.aim, Aim::Breakpoint);
                let rest = sign(is_aim, "", ", before the goal is reached");
                writeln!(text, "breakpoint after {steps}{rest}");
            }
            Ending::Reached => {
                write!(text, "stopped after {steps}");
                self.append_reached(run.aim, watched, text);
            }
            Ending::Limit => append_limit(run.aim, steps, text),
        }
        append_changed(&run.changed, text);
        if !run.changed.items().is_empty() {
            text.end();
        }
        self.append_rest(run.standing, text);
    }

    /// Appends what a single step did, and where the board stands.
    pub(crate) fn append_stepped(self, stepped: &Stepped, text: &mut Printer) {
        write!(text, "step {}", stepped.step.number);
        append_outcome(&stepped.step, text);
        self.append_rest(stepped.standing, text);
    }

    /// Appends steps, each with its number and its line.
    pub(crate) fn append_trace(self, trace: &Trace, text: &mut Printer) {
        for step in trace.steps.items() {
            write!(text, "{}  ", step.number);
            self.append_place(step.place, text);
            append_outcome(step, text);
        }
        if matches!(trace.ending, Ending::Stuck) && trace.standing.halted.is_none() {
            append_stuck(trace.standing, text);
        }
    }

    /// Appends that the board went back.
    pub(crate) fn append_back(self, standing: Standing, text: &mut Printer) {
        writeln!(text, "back at step {}", standing.steps);
        append_halt(standing, text);
        self.append_here(standing.here, text);
    }
}
