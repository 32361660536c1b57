//! What the commands answer that is an object with a kind.
ghost use Rattle.rv_json.specs.Json.{backtrace_data, breakpoint_data, breakpoints_data, checked_data, cleared_data, control_data, devices_data, dump_data, edges_data, explanation_data, file_data, given_data, lineless, met, origin_data, profiled_data, refusal_data, run_data, saved_data, stepped_data, trace_data, watched};
ghost use Rattle.serde_json.specs.Data.{string};
ghost use Rattle.std.specs.Prelude.{◌≡◌};

use crate::names::Names;
use crate::object::{object, send};
use crate::parts::MaybeText;
use crate::sent::{Text, ToJson};
use crate::words::{aim_word, ending_word, why_word};
use rv_answers::{
    Aim, Backtrace, Breakpoint, Breakpoints, Cells, Checked, Cleared, ControlValue, Devices, Dump,
    Edges, Explanation, Given, Origin, Profiled, Refusal, RegisterFile, Run, Saved, Stepped, Trace,
    Trap, Watch, Why,
};
use serde::Serializer;

impl ToJson for RegisterFile {
    ghost json = { λ ls f. file_data ls f };

    #[tactic(auto, unfolding(crate::specs::Json::file_data))]
    fn send<S: Serializer>(&self, names: &Names<'_>, out: &mut S) -> Result<(), S::Error> {
        send!(names, out, self: kind = "registers", before, now, mode, here)
    }
}

impl ToJson for ControlValue {
    ghost json = { λ _ c. control_data c };

    #[tactic(auto, unfolding(crate::specs::Json::control_data))]
    fn send<S: Serializer>(&self, names: &Names<'_>, out: &mut S) -> Result<(), S::Error> {
        send!(names, out, self: kind = "csr", name = Text(&self.name), csr, value, bits)
    }
}

impl ToJson for Dump {
    ghost json = { λ _ d. dump_data d };

    #[tactic(auto, unfolding(crate::specs::Json::dump_data, crate::specs::Json::cells_data, crate::specs::Json::format_data))]
    fn send<S: Serializer>(&self, names: &Names<'_>, out: &mut S) -> Result<(), S::Error> {
        match &self.cells {
            Cells::Bytes(cells) =>
                send!(names, out, self: kind = "memory", address, format = "bytes", cells = *cells),
            Cells::Words(cells) =>
                send!(names, out, self: kind = "memory", address, format = "words", cells = *cells),
            Cells::Text(text) =>
                send!(names, out, self: kind = "memory", address, format = "text", cells = Text(text)),
        }
    }
}

impl ToJson for Edges {
    ghost json = { λ _ e. edges_data e };

    #[tactic(auto, unfolding(crate::specs::Json::edges_data))]
    fn send<S: Serializer>(&self, names: &Names<'_>, out: &mut S) -> Result<(), S::Error> {
        send!(names, out, self: kind = "edges", source, pending)
    }
}

impl ToJson for Devices {
    ghost json = { λ _ d. devices_data d };

    #[tactic(auto, unfolding(crate::specs::Json::devices_data, crate::specs::Json::clock_data, crate::specs::Json::port_data, crate::specs::Json::interrupts_data))]
    fn send<S: Serializer>(&self, names: &Names<'_>, out: &mut S) -> Result<(), S::Error> {
        send!(names, out, self: kind = "devices", clock = object!((self.clock): time, compare, is_due, software),
            port = object!((self.port): waiting, sent, overrun),
            interrupts = object!((self.interrupts): mode, mstatus, mie, mip, next),
            threshold, is_notified, sources, regions)
    }
}

/// Returns the trap that was met.
#[tactic(auto, unfolding(crate::specs::Json::met))]
fn met(aim: Aim) -> Option<Trap>
    ensures { result ≡ met aim }
{
    match aim {
        Aim::Trap(trap) => trap,
        _ => None,
    }
}

/// Returns what was watched.
#[tactic(auto, unfolding(crate::specs::Json::watched))]
fn watched(aim: Aim) -> Option<Watch>
    ensures { result ≡ watched aim }
{
    match aim {
        Aim::Watch(watch) => Some(watch),
        _ => None,
    }
}

impl ToJson for Run {
    ghost json = { λ ls r. run_data ls r };

    #[tactic(auto, unfolding(crate::specs::Json::run_data, crate::specs::Support::Sends::Sends))]
    fn send<S: Serializer>(&self, names: &Names<'_>, out: &mut S) -> Result<(), S::Error> {
        send!(names, out, self: kind = "ended", ending = ending_word(self.ending), aim = aim_word(self.aim),
            trap = met(self.aim), watch = watched(self.aim), steps, changed, watched, standing)
    }
}

impl ToJson for Stepped {
    ghost json = { λ ls s. stepped_data ls s };

    #[tactic(auto, unfolding(crate::specs::Json::stepped_data))]
    fn send<S: Serializer>(&self, names: &Names<'_>, out: &mut S) -> Result<(), S::Error> {
        send!(names, out, self: kind = "stepped", step, standing)
    }
}

impl ToJson for Trace {
    ghost json = { λ ls t. trace_data ls t };

    #[tactic(auto, unfolding(crate::specs::Json::trace_data))]
    fn send<S: Serializer>(&self, names: &Names<'_>, out: &mut S) -> Result<(), S::Error> {
        send!(names, out, self: kind = "traced", steps, ending = ending_word(self.ending), standing)
    }
}

impl ToJson for Breakpoint {
    ghost json = { λ ls b. breakpoint_data ls b };

    #[tactic(auto, unfolding(crate::specs::Json::breakpoint_data))]
    fn send<S: Serializer>(&self, names: &Names<'_>, out: &mut S) -> Result<(), S::Error> {
        send!(names, out, self: kind = "break", place, condition = MaybeText(&self.condition), passes)
    }
}

impl ToJson for Breakpoints {
    ghost json = { λ ls b. breakpoints_data ls b };

    #[tactic(auto, unfolding(crate::specs::Json::breakpoints_data))]
    fn send<S: Serializer>(&self, names: &Names<'_>, out: &mut S) -> Result<(), S::Error> {
        send!(names, out, self: kind = "breakpoints", places, conditions, watches)
    }
}

impl ToJson for Cleared {
    ghost json = { λ ls c. cleared_data ls c };

    #[tactic(auto, unfolding(crate::specs::Json::cleared_data))]
    fn send<S: Serializer>(&self, names: &Names<'_>, out: &mut S) -> Result<(), S::Error> {
        send!(names, out, self: kind = "cleared", place, was_there)
    }
}

impl ToJson for Given {
    ghost json = { λ _ g. given_data g };

    #[tactic(auto, unfolding(crate::specs::Json::given_data))]
    fn send<S: Serializer>(&self, names: &Names<'_>, out: &mut S) -> Result<(), S::Error> {
        send!(names, out, self: kind = "given", inputs, steps, is_halted)
    }
}

impl ToJson for Saved {
    ghost json = { λ _ s. saved_data s };

    #[tactic(auto, unfolding(crate::specs::Json::saved_data))]
    fn send<S: Serializer>(&self, names: &Names<'_>, out: &mut S) -> Result<(), S::Error> {
        send!(names, out, self: kind = "saved", name = MaybeText(&self.name), list = Text(&self.list), inputs,
            commands = Text(&self.commands), steps, limit, pages)
    }
}

impl ToJson for Explanation {
    ghost json = { λ _ e. explanation_data e };

    #[tactic(auto, unfolding(crate::specs::Json::explanation_data))]
    fn send<S: Serializer>(&self, names: &Names<'_>, out: &mut S) -> Result<(), S::Error> {
        send!(names, out, self: kind = "why", trap, unseen, repeated)
    }
}

impl ToJson for Origin {
    ghost json = { λ _ o. origin_data o };

    #[tactic(auto, unfolding(crate::specs::Json::origin_data))]
    fn send<S: Serializer>(&self, names: &Names<'_>, out: &mut S) -> Result<(), S::Error> {
        send!(names, out, self: kind = "origin", target, steps, value, write)
    }
}

impl ToJson for Backtrace {
    ghost json = { λ _ b. backtrace_data b };

    #[tactic(auto, unfolding(crate::specs::Json::backtrace_data))]
    fn send<S: Serializer>(&self, names: &Names<'_>, out: &mut S) -> Result<(), S::Error> {
        send!(names, out, self: kind = "backtrace", frames, outermost)
    }
}

impl ToJson for Checked {
    ghost json = { λ _ c. checked_data c };

    #[tactic(auto, unfolding(crate::specs::Json::checked_data))]
    fn send<S: Serializer>(&self, names: &Names<'_>, out: &mut S) -> Result<(), S::Error> {
        send!(names, out, self: kind = "checked", steps, has_halted, breaches)
    }
}

impl ToJson for Profiled {
    ghost json = { λ _ p. profiled_data p };

    #[tactic(auto, unfolding(crate::specs::Json::profiled_data))]
    fn send<S: Serializer>(&self, names: &Names<'_>, out: &mut S) -> Result<(), S::Error> {
        send!(names, out, self: kind = "profiled", steps, has_halted, lines, functions)
    }
}

/// Returns the address at which no line is.
#[tactic(auto, unfolding(crate::specs::Json::lineless))]
fn lineless(why: Why) -> Option<u32>
    ensures { result ≡ lineless why }
{
    match why {
        Why::NoLine(address) => Some(address),
        _ => None,
    }
}

impl ToJson for Refusal {
    ghost json = { λ _ r. refusal_data r };

    #[tactic(auto, unfolding(crate::specs::Json::refusal_data))]
    fn send<S: Serializer>(&self, names: &Names<'_>, out: &mut S) -> Result<(), S::Error> {
        send!(names, out, self: kind = "refused", command, text = Text(&self.text), why = why_word(self.why), address = lineless(self.why))
    }
}
