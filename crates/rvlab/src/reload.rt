//! The source read again.
use crate::words::Words;
use rv_answers::{Answer, BreakCondition, Breakpoints, Place, Shown, Target, Watch};
use rv_base::{NoMemory, TEXT_LIMIT};
use rv_lab::{Lab, LabFault, Printer, append_diagnosis};
use rv_options::read_file;
use std::fs;
use std::time::SystemTime;

/// Returns when a file was written last, if that is known.
fn written(rt: &HostRuntime, path: &str) -> Option<SystemTime> {
    fs::metadata(rt, path).ok()?.modified().ok()
}

/// The file of a source that was read.
#[derive(Clone, Copy)]
pub struct SourceFile<'a> {
    words: Words<'a>,
    /// When it had been written last before it was read, or before a change of it was told.
    known: Option<SystemTime>,
}

/// Returns the command for a breakpoint at the line of a place, or at its address where it has none.
fn break_line(rt: &HostRuntime, place: Place) -> Printer {
    let mut line = Printer::new(rt.alloc());
    match place.line {
        Some(number) => write!(line, "b {number}"),
        None => write!(line, "b 0x{:08x}", place.address),
    }
    line
}

/// Appends what a breakpoint stops a run on, as the command that sets it has it.
fn append_condition(condition: &BreakCondition, line: &mut Printer) {
    if let Some(text) = &condition.text {
        line.say(" if ");
        line.put(text.items());
    }
    write!(line, " after {}", condition.passes.saturating_add(1));
}

/// Gives the breakpoint at a place its condition and the hits that it still passes, if it had some. A condition that means
/// nothing in the new source is left out.
fn set_condition(
    rt: &HostRuntime,
    place: Place,
    conditions: &[BreakCondition],
    lab: &mut Lab,
) -> Result<(), NoMemory> {
    for condition in conditions {
        if condition.address == place.address {
            let mut line = break_line(rt, place);
            append_condition(condition, &mut line);
            lab.answer(line.bytes())?;
        }
    }
    Ok(())
}

/// Sets breakpoints in a lab, with what they stop a run on.
fn set_breaks(rt: &HostRuntime, breaks: &Breakpoints, lab: &mut Lab) -> Result<(), NoMemory> {
    for place in breaks.places.items() {
        let place = *place;
        lab.answer(break_line(rt, place).bytes())?;
        set_condition(rt, place, breaks.conditions.items(), lab)?;
    }
    Ok(())
}

/// Makes the breakpoints of a lab those of another one, too.
fn copy_breaks(rt: &HostRuntime, old: &Lab, new: &mut Lab) -> Result<(), NoMemory> {
    let Some(answer) = old.look(b"b")? else {
        return Ok(());
    };
    match &answer {
        Answer::Breakpoints(breaks) => set_breaks(rt, breaks, new),
        _ => Ok(()),
    }
}

/// Returns the command to watch a register, or the word at an address: by the name before it, if the address lies in the
/// image.
fn watch_line(rt: &HostRuntime, target: Target, lab: &Lab) -> Printer {
    let mut line = Printer::new(rt.alloc());
    match target {
        Target::Register(register) => write!(line, "watch x{}", register.number()),
        Target::Word(address) => append_word(lab, address, &mut line),
    }
    line
}

/// Appends the command to watch the word at an address.
fn append_word(lab: &Lab, address: u32, line: &mut Printer) {
    match lab.listing().label_before(address) {
        Some(label) if lab.listing().line_at(address).is_some() => {
            let name = Shown(label.name.bytes());
            write!(line, "watch [{name}+{}]", label.distance);
        }
        _ => write!(line, "watch [0x{address:08x}]"),
    }
}

/// Has a lab watch what another one watches. What means nothing in the new source is left out.
fn set_watches(
    rt: &HostRuntime,
    watches: &[Watch],
    old: &Lab,
    new: &mut Lab,
) -> Result<(), NoMemory> {
    for watch in watches {
        new.answer(watch_line(rt, watch.target, old).bytes())?;
    }
    Ok(())
}

/// Makes what a lab watches what another one watches, too.
fn copy_watches(rt: &HostRuntime, old: &Lab, new: &mut Lab) -> Result<(), NoMemory> {
    let Some(answer) = old.look(b"watch")? else {
        return Ok(());
    };
    match &answer {
        Answer::Watches(watches) => set_watches(rt, watches.items(), old, new),
        _ => Ok(()),
    }
}

impl<'a> SourceFile<'a> {
    /// Returns the file that words name, which is to be read now.
    pub fn new(rt: &HostRuntime, words: Words<'a>) -> SourceFile<'a> {
        let known = written(rt, words.opening.source);
        SourceFile { words, known }
    }

    /// Returns whether the file was written since it was read or since that was told.
    pub fn is_newer(&mut self, rt: &HostRuntime) -> bool {
        let now = written(rt, self.words.opening.source);
        let is_newer = now.is_some() && now != self.known;
        self.known = now;
        is_newer
    }

    /// Opens a lab of a source, with the inputs, the breakpoints and the watches of another one.
    fn open(&self, rt: &HostRuntime, source: &[u8], old: &Lab) -> Result<Lab, LabFault> {
        let Ok(inputs) = old.recording().inputs_text(rt.alloc()) else {
            return Err(LabFault::OutOfMemory);
        };
        let mut new = Lab::open(rt.alloc(), source, inputs.as_slice(), self.words.sizes())?;
        match copy_breaks(rt, old, &mut new) {
            Ok(()) => {}
            Err(NoMemory) => return Err(LabFault::OutOfMemory),
        }
        match copy_watches(rt, old, &mut new) {
            Ok(()) => Ok(new),
            Err(NoMemory) => Err(LabFault::OutOfMemory),
        }
    }

    /// Reads the file again, and puts a lab of it in the place of another one, with its inputs, breakpoints and watches. Where that
    /// can't be done the lab stays, and the text tells why.
    pub fn reload(&mut self, rt: &HostRuntime, lab: &mut Lab, text: &mut Printer) {
        self.known = written(rt, self.words.opening.source);
        let Some(source) = read_file(rt, self.words.opening.source, TEXT_LIMIT) else {
            return text.say("cannot read source\n");
        };
        match self.open(rt, &source, lab) {
            Ok(new) => {
                *lab = new;
                lab.greet(self.words.opening.source, text);
            }
            Err(fault) => append_diagnosis(self.words.opening.source, &source, fault, text),
        }
    }
}
