//! The text of an answer.
ghost use Rattle.std.specs.Prelude.{◌≡◌, []};
ghost use Rattle.rv_answers.specs.declared.answer.Answer.TheVariants.{Nothing};

use crate::Printer;
use crate::answer::Answer;
use crate::help::{append_help, append_unknown};
use crate::inputs::{append_given, append_saved};
use crate::interrupts::append_devices;
use crate::lines::Lines;
use crate::looks::{append_count, append_edges, append_halt, append_stuck};
use crate::memory::{append_console, append_dump};
use crate::registers::append_control;
use crate::runs::{append_all_watches, append_unwatched, append_watches};

impl Lines<'_> {
    /// Appends what a command answers, with what the console got meanwhile: before its answer, but after the text of
    /// the monitor and the lines of a trace.
    pub fn append_reply(self, answer: &Answer, console: &[u8], text: &mut Printer)
        ensures quiet { answer.now ≡ Nothing → console.now ≡ [] → text.new ≡ text.old }
    {
        match answer {
            Answer::Nothing => append_console(console, text),
            Answer::Monitor(told) => {
                text.put(told.items());
                append_console(console, text);
            }
            Answer::Traced(trace) => {
                self.append_trace(trace, text);
                append_console(console, text);
                append_halt(trace.standing, text);
            }
            answer => {
                append_console(console, text);
                self.append_value(answer, text);
            }
        }
    }

    /// Appends what a command answers. A run that isn't over says nothing but what the console got.
    fn append_value(self, answer: &Answer, text: &mut Printer) {
        match answer {
            Answer::Where(standing) => self.append_standing(*standing, text),
            Answer::Registers(file) => self.append_file(file, text),
            Answer::Register(one) => writeln!(text, "{one}"),
            Answer::ControlRegister(value) => append_control(value, text),
            Answer::Memory(dump) => append_dump(dump, text),
            Answer::Instruction(place) => self.append_instruction_at(*place, text),
            Answer::List(rows) => self.append_rows(rows.items(), text),
            Answer::BehindLast(count) => append_count(*count, text),
            Answer::WasLast => text.say("that was the last line\n"),
            Answer::Breakpoints(breaks) => self.append_breakpoints(breaks, text),
            Answer::Traps(traps) => self.append_traps(traps.items(), text),
            Answer::Edges(edges) => append_edges(*edges, text),
            Answer::Devices(devices) => append_devices(devices, text),
            Answer::Ended(run) => self.append_run(run, text),
            Answer::Stepped(stepped) => self.append_stepped(stepped, text),
            Answer::Stuck(standing) => append_stuck(*standing, text),
            Answer::Back(standing) => self.append_back(*standing, text),
            Answer::Break(set) => self.append_break(set, text),
            Answer::Cleared(cleared) => self.append_cleared(*cleared, text),
            Answer::Given(given) => append_given(*given, text),
            Answer::Saved(saved) => append_saved(saved, text),
            Answer::Explained(told) => self.append_explanation(told, text),
            Answer::Origin(origin) => self.append_origin(origin, text),
            Answer::Backtrace(backtrace) => self.append_backtrace(backtrace, text),
            Answer::Checked(checked) => self.append_checked(checked, text),
            Answer::Profiled(profile) => self.append_profile(profile, text),
            Answer::Display(watch) => writeln!(text, "{watch}"),
            Answer::Watch(watch) => append_watches(&[*watch], text),
            Answer::Watches(watches) => append_all_watches(watches.items(), text),
            Answer::Unwatched(count) => append_unwatched(*count, text),
            Answer::Help(command) => append_help(*command, text),
            Answer::NoCommand(word) => append_unknown(word.items(), text),
            Answer::TooLong => text.say("a line has at most 1024 bytes\n"),
            Answer::Refused(refusal) => self.append_refusal(refusal, text),
            _ => {}
        }
    }
}
