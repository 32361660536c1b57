//! The text of what commands answer that change breakpoints, give inputs or save.
use crate::Printer;
use crate::interrupts::sign;
use crate::lines::{Lines, Short};
use crate::many::Many;
use crate::moves::{BreakCondition, Breakpoint, Breakpoints, Cleared, Given, Saved};
use crate::runs::append_watches;
use crate::shown::{Count, Shown};

/// Appends the condition of a breakpoint, if it has one, and how many hits are passed before one stops a run.
fn append_condition(condition: &Option<Many<u8>>, passes: u64, text: &mut Printer) {
    if let Some(condition) = condition {
        write!(text, " if {}", Shown(condition.items()));
    }
    if passes > 0 {
        let verb = sign(passes == 1, "is", "are");
        write!(text, ", {} {verb} passed first", Count(passes, "hit"));
    }
}

/// Appends those of some conditions that are of the breakpoint at an address.
fn append_condition_at(conditions: &[BreakCondition], address: u32, text: &mut Printer) {
    for condition in conditions {
        if condition.address == address {
            append_condition(&condition.text, condition.passes, text);
        }
    }
}

impl Lines<'_> {
    /// Appends that a breakpoint is at a place, and its condition.
    pub(crate) fn append_break(self, set: &Breakpoint, text: &mut Printer) {
        let place = set.place;
        write!(text, "breakpoint at{}", Short(self, place));
        append_condition(&set.condition, set.passes, text);
        if place.address % 4 != 0 || place.word.is_none() {
            text.say(", where no instruction can be");
        }
        text.end();
    }

    /// Appends all breakpoints with their conditions.
    pub(crate) fn append_breakpoints(self, breaks: &Breakpoints, text: &mut Printer) {
        let places = breaks.places.items();
        if places.is_empty() {
            text.say("no breakpoints; `help b` shows how to set one\n");
        }
        for place in places {
            self.append_place(*place, text);
            append_condition_at(breaks.conditions.items(), place.address, text);
            text.end();
        }
        append_watches(breaks.watches.items(), text);
    }

    /// Appends that no breakpoint is at a place.
    pub(crate) fn append_cleared(self, cleared: Cleared, text: &mut Printer) {
        let which = sign(cleared.was_there, "no more breakpoint", "no breakpoint is");
        writeln!(text, "{which} at{}", Short(self, cleared.place));
    }
}

/// Appends how many inputs a board was given, or that it takes none.
pub(crate) fn append_given(given: Given, text: &mut Printer) {
    if given.is_halted {
        return text.say("the board has halted, and takes no input\n");
    }
    let inputs = Count(given.inputs as u64, "input");
    writeln!(text, "{inputs} before step {}", given.steps);
}

/// Appends the options with which rvboard repeats what was done.
fn append_options(saved: &Saved, text: &mut Printer) {
    let limit = saved.limit;
    writeln!(text, "--steps {limit} --pages {}", saved.pages);
    if saved.steps > limit {
        let more = saved.steps - limit;
        write!(text, "# rvboard takes at most {limit} steps, ");
        write!(text, "and so not the last {more}; `u {more}` ");
        text.say("goes back to there, and then save again\n");
    }
}

/// Appends that what was done is saved under a name, and how rvboard repeats it.
fn append_named(name: &[u8], saved: &Saved, text: &mut Printer) {
    let name = Shown(name);
    let inputs = Count(saved.inputs as u64, "input");
    let steps = Count(saved.steps, "step");
    write!(text, "wrote {name}.input ({inputs}) and {name}.commands ");
    write!(text, "({steps}); repeat them by\n  ./rvboard SOURCE ");
    write!(text, "--input {name}.input --commands {name}.commands ");
    append_options(saved, text);
}

/// Appends what was done, as texts for rvboard or by the name under which they are saved.
pub(crate) fn append_saved(saved: &Saved, text: &mut Printer) {
    if let Some(name) = &saved.name {
        return append_named(name.items(), saved, text);
    }
    text.say("# timed list\n");
    text.put(saved.list.items());
    text.say("# commands, with the options ");
    append_options(saved, text);
    text.put(saved.commands.items());
}
