//! The text of the devices, the interrupts and protection.
ghost use Rattle.std.specs.Prelude.{◌<◌};

use crate::Printer;
use crate::looks::mode_name;
use crate::shown::Count;
use crate::states::has_bit;
use crate::values::{Clock, Devices, Interrupts, Port, Range, Region, Rights, SourceState};
use std::fmt::{self, Display, Formatter};

/// Returns a sign where something stands, and else another.
pub(crate) fn sign(stands: bool, yes: &'static str, no: &'static str) -> &'static str {
    if stands { yes } else { no }
}

/// Returns the level of a line.
fn level(is_high: bool) -> &'static str {
    sign(is_high, "high", "low")
}

/// Appends the timer: the largest time to compare with never comes.
fn append_clock(clock: Clock, text: &mut Printer) {
    write!(text, "timer: mtime {}, mtimecmp ", clock.time);
    match clock.compare {
        u64::MAX => text.say("never"),
        time => text.number(time),
    }
    if clock.compare >= 0xffff_ffff_0000_0000 && clock.compare < u64::MAX {
        text.say(" (its high half is as at reset: write both halves)");
    }
    let line = level(clock.is_due);
    writeln!(text, ", its line is {line}; msip {}", clock.software as u8);
}

/// Appends the serial port.
fn append_port(port: Port, text: &mut Printer) {
    let waiting = Count(port.waiting as u64, "byte");
    write!(text, "serial: {waiting} waiting, {} sent", port.sent);
    let lost = "; a byte was lost since the last look at the status\n";
    text.say(sign(port.overrun, lost, "\n"));
}

/// Returns what comes of an interrupt.
fn outcome(is_high: bool, is_enabled: bool, next: Option<u32>, cause: u32) -> &'static str {
    match next {
        _ if !is_high => "\n",
        _ if !is_enabled => ": never taken as it stands\n",
        Some(next) if next == cause => ": taken at the next step\n",
        Some(_) => ": waits for the one before it\n",
        None => ": waits, since mstatus.MIE is 0 in machine mode\n",
    }
}

/// Appends an interrupt with a number.
fn append_interrupt(name: &str, place: u32, interrupts: Interrupts, text: &mut Printer)
    requires { place < 32 }
{
    let is_high = has_bit(interrupts.mip, place);
    let is_enabled = has_bit(interrupts.mie, place);
    let (line, not) = (level(is_high), sign(is_enabled, "", "not "));
    write!(text, "{name} line {line}, {not}enabled in mie");
    if !is_enabled {
        write!(text, " (bit {place})");
    }
    text.say(outcome(is_high, is_enabled, interrupts.next, 0x8000_0000 + place));
}

/// Appends the interrupts of a hart.
fn append_interrupts(interrupts: Interrupts, text: &mut Printer) {
    let mie = has_bit(interrupts.mstatus, 3) as u8;
    let mode = mode_name(interrupts.mode);
    let is_machine = interrupts.mode.is_machine();
    let always = sign(is_machine, "", ", where they are always let in");
    writeln!(text, "interrupts: mstatus.MIE {mie}, {mode}{always}");
    append_interrupt("  external", 11, interrupts, text);
    append_interrupt("  software", 3, interrupts, text);
    append_interrupt("  timer   ", 7, interrupts, text);
}

/// Appends a source of the interrupt controller, unless it is as at reset.
fn append_source(state: SourceState, threshold: u32, text: &mut Printer) {
    let is_requested = state.is_pending || state.is_claimed;
    let (source, priority, edges) = (state.source, state.priority, state.edges);
    if !state.is_high && !is_requested && !state.is_enabled && priority == 0 && edges == 0 {
        return;
    }
    write!(text, "  source {source}: line {}, ", level(state.is_high));
    let claimed = sign(state.is_claimed, "claimed and not completed", "not pending");
    text.say(sign(state.is_pending, "pending", claimed));
    text.say(sign(state.is_enabled, ", enabled", ", not enabled"));
    write!(text, ", priority {priority}");
    if state.is_enabled && priority <= threshold {
        text.say(", not above the threshold");
    }
    if edges > 0 {
        write!(text, ", {}", Count(u64::from(edges), "pending edge"));
    }
    text.end();
}

/// Appends the devices, the interrupts and protection.
pub(crate) fn append_devices(devices: &Devices, text: &mut Printer) {
    append_clock(devices.clock, text);
    append_port(devices.port, text);
    append_interrupts(devices.interrupts, text);
    let (threshold, line) = (devices.threshold, level(devices.is_notified));
    text.say("interrupt controller: ");
    writeln!(text, "threshold {threshold}, its line is {line}");
    for state in devices.sources.items() {
        append_source(*state, threshold, text);
    }
    append_regions(devices.regions.items(), text);
}

impl Display for Rights {
    fn fmt<W: fmt::Write>(&self, f: &mut Formatter<W>) -> fmt::Result {
        let (read, write) = (sign(self.read, "r", "-"), sign(self.write, "w", "-"));
        write!(f, "{read}{write}{}", sign(self.execute, "x", "-"))
    }
}

impl Display for Region {
    fn fmt<W: fmt::Write>(&self, f: &mut Formatter<W>) -> fmt::Result {
        let (entry, user, machine) = (self.entry, self.user, self.machine);
        let Some(Range { first, last }) = self.range else {
            return write!(f, "entry {entry}, no byte");
        };
        let locked = sign(self.is_locked, " (locked)", "");
        write!(
            f,
            "entry {entry}, {first:08x} to {last:08x}: user {user}, machine {machine}{locked}"
        )
    }
}

/// Appends protection.
fn append_regions(regions: &[Region], text: &mut Printer) {
    text.say("protection:\n");
    for region in regions {
        writeln!(text, "  {region}");
    }
    text.say(if regions.is_empty() {
        "  no entry is on: machine rwx everywhere, user nothing\n"
    } else {
        "  elsewhere: user nothing, machine rwx; the first entry that has a byte decides\n"
    });
}
