//! The JSON of an answer.
ghost use Rattle.rv_json.specs.Json.{answer_data};

use crate::names::Names;
use crate::object::{send_kind, send_one};
use crate::sent::{Text, ToJson};
use rv_answers::Answer;
use serde::Serializer;

impl ToJson for Answer {
    ghost json = { λ ls a. answer_data ls a };

    #[tactic(auto, unfolding(crate::specs::Json::answer_data, crate::specs::Support::Sends::Sends))]
    fn send<S: Serializer>(&self, names: &Names<'_>, out: &mut S) -> Result<(), S::Error> {
        match self {
            Answer::Nothing => send_kind("nothing", names, out),
            Answer::Monitor(told) => send_one("monitor", "text", &Text(told), names, out),
            Answer::Where(standing) => standing.send(names, out),
            Answer::Registers(file) => file.send(names, out),
            Answer::Register(one) => one.send(names, out),
            Answer::ControlRegister(value) => value.send(names, out),
            Answer::Memory(dump) => dump.send(names, out),
            Answer::Instruction(place) => send_one("instruction", "place", place, names, out),
            Answer::List(rows) => send_one("list", "rows", rows, names, out),
            Answer::BehindLast(count) => send_one("behind_last", "lines", count, names, out),
            Answer::WasLast => send_kind("was_last", names, out),
            Answer::Breakpoints(breaks) => breaks.send(names, out),
            Answer::Traps(traps) => send_one("traps", "traps", traps, names, out),
            Answer::Edges(edges) => edges.send(names, out),
            Answer::Devices(devices) => devices.send(names, out),
            Answer::Running(steps) => send_one("running", "steps", steps, names, out),
            Answer::Ended(run) => run.send(names, out),
            Answer::Stepped(stepped) => stepped.send(names, out),
            Answer::Stuck(standing) => send_one("stuck", "standing", standing, names, out),
            Answer::Traced(trace) => trace.send(names, out),
            Answer::Back(standing) => send_one("back", "standing", standing, names, out),
            Answer::Break(set) => set.send(names, out),
            Answer::Cleared(cleared) => cleared.send(names, out),
            Answer::Given(given) => given.send(names, out),
            Answer::Saved(saved) => saved.send(names, out),
            Answer::Explained(explanation) => explanation.send(names, out),
            Answer::Origin(origin) => origin.send(names, out),
            Answer::Backtrace(backtrace) => backtrace.send(names, out),
            Answer::Checked(checked) => checked.send(names, out),
            Answer::Profiled(profile) => profile.send(names, out),
            Answer::Display(watch) => send_one("display", "watch", watch, names, out),
            Answer::Watch(watch) => send_one("watch", "watch", watch, names, out),
            Answer::Watches(watches) => send_one("watches", "watches", watches, names, out),
            Answer::Unwatched(count) => send_one("unwatched", "ended", count, names, out),
            Answer::Help(command) => send_one("help", "command", command, names, out),
            Answer::NoCommand(word) => send_one("no_command", "word", &Text(word), names, out),
            Answer::TooLong => send_kind("too_long", names, out),
            Answer::Refused(refusal) => refusal.send(names, out),
        }
    }
}
