//! The text of an explained trap, and of where a value came from.
use crate::Printer;
use crate::explained::{
    Area, Barrier, Before, Explained, Explanation, Handler, Origin, Reason, Repeated, Sum,
    Unfetched, Write,
};
use crate::interrupts::sign;
use crate::lines::{Lines, append_instruction};
use crate::moves::Watch;
use crate::registers::{Cause, Value, register_name};
use crate::values::RegisterValue;
use rv_isa::{Kind, decode};
use rv_pmp::Mode;

/// Returns what is at an address that isn't in the memory.
fn area_name(area: Area) -> &'static str {
    match area {
        Area::Nothing => "nothing",
        Area::Halt => "the halt register, which takes 4 bytes",
        Area::Timer =>
            "the timer, whose registers take 4 bytes at 0, 0x4000, 0x4004, 0xbff8 and 0xbffc",
        Area::Controller => "the interrupt controller, which takes 4 bytes",
        Area::Serial => "the serial port, with registers at 0, 4 and 8",
        Area::PastEnd => "past the end of the memory",
    }
}

/// Appends what refused an access of a hart in a mode to an address.
fn append_barrier(barrier: Barrier, address: u32, mode: Mode, text: &mut Printer) {
    match barrier {
        Barrier::Absent(area) => writeln!(text, "  at {address:08x} is {}", area_name(area)),
        Barrier::Protection { mode: asked, entry } => {
            let is_lent = mode.is_machine() && !asked.is_machine();
            text.say("  protection refused it");
            text.say(sign(is_lent, " to user mode, whose rights MPRV gave it: ", ": "));
            match entry {
                Some(region) => writeln!(text, "{region}"),
                None => text.say("no entry has the address, so user mode gets nothing there\n"),
            }
        }
    }
}

/// Appends what is said of an address, and the register and the offset of which it was made, if it was, as a line.
fn append_sum(subject: &str, address: u32, rest: &str, sum: Option<Sum>, text: &mut Printer) {
    write!(text, "  {subject} {address:08x}{rest}");
    let Some(sum) = sum else {
        return text.end();
    };
    write!(text, ": {} is {:08x}", register_name(sum.base), sum.value);
    if sum.offset != 0 {
        write!(text, ", and the offset {}", sum.offset);
    }
    if sum.base.number() == 2 && sum.value >= 0xffff_0000 {
        text.say("; sp is 0 at reset: was it set?");
    }
    text.end();
}

/// Appends why an instruction was illegal.
fn append_illegal(reason: Reason, word: u32, text: &mut Printer) {
    let why = match reason {
        Reason::NoRegister(_) => ", whose control register doesn't exist\n",
        Reason::ReadOnly(_) => ", whose control register can't be written\n",
        Reason::MachineOnly => ", which user mode may not do\n",
        _ => return,
    };
    write!(text, "  the word {word:08x} is ");
    if let Some(instr) = decode(word) {
        text.instruction(instr);
    }
    text.say(why);
}

/// Appends why a trap came.
fn append_reason(trap: &Explained, text: &mut Printer) {
    let value = trap.value;
    match trap.reason {
        Reason::NotFetched(Unfetched::Refused(barrier)) => {
            append_barrier(barrier, trap.address, trap.mode, text);
        }
        Reason::NotFetched(Unfetched::NoInstruction(word)) => {
            write!(text, "  the word {word:08x} is no instruction");
            text.say(": did the program run on into data?\n");
        }
        Reason::Target(sum) => append_sum("the target is", value, "", sum, text),
        Reason::Misaligned { sum, .. } => {
            let rest = " is no multiple of the access's size";
            append_sum("the address", value, rest, Some(sum), text);
        }
        Reason::Refused { sum, barrier } => {
            append_sum("the address is", value, "", Some(sum), text);
            append_barrier(barrier, value, trap.mode, text);
        }
        reason => append_illegal(reason, value, text),
    }
}

/// Appends a word of memory and its instruction as a line that begins with a text.
fn append_word_at(start: &str, word: Option<u32>, text: &mut Printer) {
    text.say(start);
    append_instruction(word, text);
    text.end();
}

/// Returns what isn't where a handler should be.
fn missing_name(missing: Unfetched) -> &'static str {
    match missing {
        Unfetched::NoInstruction(_) => "no instruction is",
        Unfetched::Refused(Barrier::Absent(_)) => "no memory is",
        Unfetched::Refused(Barrier::Protection { .. }) => "protection lets nothing be executed",
    }
}

/// How many traps a board keeps.
const KEPT: u64 = 64;

/// The bit of a cause that tells an interrupt.
const INTERRUPT: u32 = 1 << 31;

/// Returns whether the last trap is one that is explained.
fn is_same(last: Repeated, trap: &Explained) -> bool {
    last.cause == trap.cause && last.value == trap.value && last.address == trap.address
}

/// Returns whether a trap came right after the return from a handler.
fn follows_return(trap: &Explained) -> bool {
    if let Some(before) = trap.before
        && let Some(word) = before.word
        && let Some(instr) = decode(word)
    {
        return matches!(instr.kind(), Kind::Mret);
    }
    false
}

/// Appends a register that an instruction read, with its value. That of x0 is no news.
fn append_read(read: Option<RegisterValue>, text: &mut Printer) {
    if let Some(one) = read
        && one.register.number() > 0
    {
        write!(text, ", with {one}");
    }
}

impl Lines<'_> {
    /// Appends the instruction of a write, with its place and what it read.
    fn append_writer(self, write: Write, text: &mut Printer) {
        self.append_here(self.place_at(write.address, write.word), text);
        text.say("  ");
        append_instruction(write.word, text);
        append_read(write.first, text);
        append_read(write.second, text);
        if let Some(address) = write.accessed {
            write!(text, ", at {address:08x}");
        }
        text.end();
    }

    /// Appends the step that wrote a word of the program last.
    fn append_changer(self, write: Write, text: &mut Printer) {
        let is_stack = write.second.is_some_and(|one| one.register.number() == 2);
        let how = sign(is_stack, ": the stack ran into it", "");
        write!(text, "  step {} wrote it{how}: ", write.step);
        self.append_writer(write, text);
    }

    /// Appends the instruction from which pc came.
    fn append_before(self, before: Before, target: u32, text: &mut Printer) {
        text.say("  pc came from ");
        self.append_here(self.place_at(before.address, before.word), text);
        if before.sum.is_some() {
            append_sum("the target is", target, "", before.sum, text);
        }
    }

    /// Appends where a trap went. From the base of mtvec each further step traps to it again, if it met no handler.
    fn append_handler(self, handler: Handler, text: &mut Printer) {
        let (at, mtvec) = (handler.address, handler.mtvec);
        let Some(missing) = handler.missing else {
            return writeln!(text, "  it went to{}", self.short_at(at));
        };
        let name = missing_name(missing);
        write!(text, "  it met no handler: mtvec is {mtvec:08x}, ");
        // In a table of handlers each interrupt has a place of its own.
        if at != mtvec / 4 * 4 {
            writeln!(text, "and at {at:08x}, the place of this interrupt, {name}");
        } else {
            writeln!(text, "where {name}, so each further step trapped as well");
        }
    }

    /// Appends a trap with why it came and where it went.
    fn append_explained(self, trap: &Explained, text: &mut Printer) {
        writeln!(text, "step {}: trap {}", trap.step, Cause(trap.cause));
        let place = self.place_at(trap.address, trap.word);
        text.say("  ");
        self.append_here(place, text);
        if place.line.is_some() {
            append_word_at("  ", trap.word, text);
        }
        append_reason(trap, text);
        if trap.overwritten.is_some() {
            let sentence = "  the program changed it: at reset it was ";
            append_word_at(sentence, trap.overwritten, text);
        }
        if let Some(write) = trap.writer {
            self.append_changer(write, text);
        }
        if trap.cause == 1
            && let Some(before) = trap.before
        {
            self.append_before(before, trap.address, text);
        }
        self.append_handler(trap.handler, text);
    }

    /// Returns whether two addresses lie behind the same label.
    fn is_near(self, first: u32, second: u32) -> bool {
        if let Some(first) = self.listing.label_before(first)
            && let Some(second) = self.listing.label_before(second)
        {
            return first.name.bytes() == second.name.bytes();
        }
        false
    }

    /// Appends why an explained trap came again, if it can be told.
    fn append_again(self, trap: &Explained, text: &mut Printer) {
        let returns = follows_return(trap);
        if returns && trap.cause >= INTERRUPT {
            text.say(": mret led to it at once, so the handler doesn't withdraw the interrupt");
        } else if returns {
            text.say(": mret led to it at once; the next instruction is at mepc + 4");
        } else if self.is_near(trap.address, trap.handler.address) {
            text.say(": it comes in the handler itself");
        }
    }

    /// Appends that the last trap came again and again, if all traps that are kept are the same.
    fn append_repeated(self, trap: &Explained, last: Repeated, text: &mut Printer) {
        if last.times < KEPT || trap.handler.missing.is_some() {
            return;
        }
        let is_same = is_same(last, trap);
        if is_same {
            text.say("  the same trap");
        } else {
            let (cause, place) = (Cause(last.cause), self.short_at(last.address));
            write!(text, "  the last trap, {cause}, at{place},");
        }
        write!(text, " came {} times in a row or more", last.times);
        if is_same {
            self.append_again(trap, text);
        }
        text.end();
    }

    /// Appends what is told of the traps of some steps.
    pub(crate) fn append_explanation(self, told: &Explanation, text: &mut Printer) {
        let is_cut = told.unseen > 0;
        let Some(trap) = told.trap else {
            let unseen = "no trap in the first 20000000 steps\n";
            return text.say(sign(is_cut, unseen, "no trap so far\n"));
        };
        if trap.handler.missing.is_none() {
            text.say("each trap ");
            text.say(sign(is_cut, "of the first 20000000 steps ", ""));
            text.say("met a handler; the last one:\n");
        }
        self.append_explained(&trap, text);
        if let Some(last) = told.repeated {
            self.append_repeated(&trap, last, text);
        }
    }

    /// Appends where a value came from.
    pub(crate) fn append_origin(self, origin: &Origin, text: &mut Printer) {
        let Origin { target, value, .. } = *origin;
        let now = Watch { target, value };
        let Some(write) = origin.write else {
            write!(text, "{now}, as at reset: ");
            return writeln!(text, "no step up to step {} wrote it", origin.steps);
        };
        write!(text, "step {}: {now}", write.step);
        if let Some(word) = write.before {
            write!(text, "; before, it was {}", Value(Some(word)));
        }
        text.say("\n  ");
        self.append_writer(write, text);
    }
}
