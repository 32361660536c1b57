//! The text of calls: the frames of those that are open, the breaches of their convention, and where the steps of a run
//! were spent.
use crate::Printer;
use crate::convention::{Breach, Checked, Deviation, Entry, Return};
use crate::frames::{Backtrace, Frame, Outermost, Reached, is_guess};
use crate::interrupts::sign;
use crate::lines::Lines;
use crate::profile::{Profiled, Spent};
use crate::registers::{Value, register_name};
use crate::shown::Count;

/// Appends why no frame is told above the last one.
fn append_outermost(outermost: Outermost, text: &mut Printer) {
    match outermost {
        Outermost::Outside(pc) => write!(text, "the next one would be at {pc:08x}"),
        Outermost::Below(sp) => write!(text, "the next one's sp would be {sp:08x}"),
        _ => {}
    }
    text.say(match outermost {
        Outermost::Start => "the program begins with that function\n",
        Outermost::Resumed => "an mret began that function\n",
        Outermost::NoFunction => "no function is known to lie there\n",
        Outermost::NoRa => "it isn't known where that returns to: ra isn't kept\n",
        Outermost::NoSp => "it isn't known where its caller's sp is\n",
        Outermost::NoMepc => "a trap came in that handler, so mepc isn't where it was entered\n",
        Outermost::Outside(_) => ", where the source has no line\n",
        Outermost::Below(_) => ", and not further up\n",
        Outermost::More => "there are more\n",
    });
}

/// How many lines, and how many functions, are shown at most.
const MOST_SHOWN: usize = 20;

/// Appends how many steps a run had, and whether it ended with them.
fn append_length(steps: u64, has_halted: bool, text: &mut Printer) {
    let rest = sign(has_halted, ", up to the halt", " and it goes on");
    write!(text, "{}{rest}", Count(steps, "step"));
}

impl Lines<'_> {
    /// Appends a frame with its number.
    fn append_frame(self, number: usize, frame: Frame, text: &mut Printer) {
        let guess = sign(is_guess(frame.reached), "?", " ");
        let word = match frame.reached {
            Reached::Here => "    ",
            Reached::Call(_) => "call",
            Reached::Trap(_) => "trap",
        };
        write!(text, "#{number} {word}{guess} ");
        self.append_place(self.place_at(frame.address, None), text);
        writeln!(text, "  sp = {:08x}", frame.sp);
    }

    /// Appends frames, the innermost first, and why no more are told.
    pub(crate) fn append_backtrace(self, backtrace: &Backtrace, text: &mut Printer) {
        let frames = backtrace.frames.items();
        for number in 0..frames.len() {
            self.append_frame(number, frames[number], text);
        }
        append_outermost(backtrace.outermost, text);
    }

    /// Appends what a return didn't restore.
    fn append_return(self, back: &Return, text: &mut Printer) {
        let is_call = matches!(back.entry, Entry::Call);
        let entry = sign(is_call, "the call", "the trap");
        writeln!(text, "  after {entry} at{}", self.short_at(back.from));
        for one in back.registers.items() {
            let name = register_name(one.register);
            let (now, before) = (Value(Some(one.now)), Value(Some(one.entry)));
            writeln!(text, "  {name} = {now}; at {entry} it was {before}");
        }
        let (to, wanted) = (back.target, back.wanted);
        if to != wanted {
            writeln!(text, "  it returns to {to:08x}, and not to {wanted:08x}");
        }
    }

    /// Appends a breach.
    fn append_breach(self, breach: &Breach, text: &mut Printer) {
        write!(text, "step {}: ", breach.step);
        self.append_here(self.place_at(breach.address, None), text);
        match &breach.deviation {
            Deviation::Below(address) => writeln!(text, "  it uses {address:08x}, below sp"),
            Deviation::Return(back) => self.append_return(back, text),
        }
    }

    /// Appends the breaches of a run.
    pub(crate) fn append_checked(self, checked: &Checked, text: &mut Printer) {
        let count = checked.breaches.items().len() as u64;
        let breaches = Count(count, "breach");
        append_length(checked.steps, checked.has_halted, text);
        write!(text, ": {breaches} of the calling convention");
        text.say(sign(count > 1, ", each where it came first\n", "\n"));
        for breach in checked.breaches.items() {
            self.append_breach(breach, text);
        }
    }

    /// Appends how many of all steps were spent in a place, and how much of them that is.
    fn append_spent(self, spent: Spent, all: u64, text: &mut Printer) {
        let tenths = spent.steps.saturating_mul(1000) / all.max(1);
        let (percent, tenth) = (tenths / 10, tenths % 10);
        write!(text, "{:>12}{percent:>5}.{tenth}%  ", spent.steps);
        self.append_here(self.place_at(spent.address, None), text);
    }

    /// Appends places with their steps, the first of them, and how many aren't shown.
    fn append_places(self, title: &str, rows: &[Spent], all: u64, text: &mut Printer) {
        writeln!(text, "{title}:");
        for spent in rows.iter().take(MOST_SHOWN) {
            self.append_spent(*spent, all, text);
        }
        if rows.len() > MOST_SHOWN {
            writeln!(text, "  and {} more", rows.len() - MOST_SHOWN);
        }
    }

    /// Appends where the steps of a run were spent.
    pub(crate) fn append_profile(self, profile: &Profiled, text: &mut Printer) {
        let steps = profile.steps;
        append_length(steps, profile.has_halted, text);
        text.end();
        self.append_places("by function", profile.functions.items(), steps, text);
        self.append_places("by line", profile.lines.items(), steps, text);
    }
}
