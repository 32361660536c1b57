//! What a word says.
ghost use Rattle.rv_json.specs.Json.{aim_data, area_data, command_data, ending_data, entry_data, mode_data, reached_data, why_data};
ghost use Rattle.serde_json.specs.Data.{string};
ghost use Rattle.std.specs.Prelude.{◌≡◌};

use crate::names::Names;
use crate::sent::{ToJson, send_word};
use rv_answers::{Aim, Area, Command, Ending, Entry, Reached, Why, command_word};
use rv_pmp::Mode;
use serde::Serializer;

impl ToJson for Mode {
    ghost json = { λ _ m. mode_data m };

    #[tactic(auto, unfolding(crate::specs::Json::mode_data))]
    fn send<S: Serializer>(&self, _: &Names<'_>, out: &mut S) -> Result<(), S::Error> {
        match self {
            Mode::User => send_word("user", out),
            Mode::Machine => send_word("machine", out),
        }
    }
}

impl ToJson for Command {
    ghost json = { λ _ c. command_data c };

    #[tactic(auto, unfolding(crate::specs::Json::command_data))]
    fn send<S: Serializer>(&self, _: &Names<'_>, out: &mut S) -> Result<(), S::Error> {
        send_word(command_word(*self), out)
    }
}

/// Returns the word for why a run is over.
#[tactic(auto, unfolding(crate::specs::Json::ending_data))]
pub(crate) fn ending_word(ending: Ending) -> &'static str
    ensures { ending_data ending ≡ string result.now }
{
    match ending {
        Ending::Halted => "halted",
        Ending::Reached => "reached",
        Ending::Breakpoint => "breakpoint",
        Ending::Limit => "limit",
        Ending::Stuck => "stuck",
    }
}

/// Returns the word for what a run went on for.
#[tactic(auto, unfolding(crate::specs::Json::aim_data))]
pub(crate) fn aim_word(aim: Aim) -> &'static str
    ensures { aim_data aim ≡ string result.now }
{
    match aim {
        Aim::Steps => "steps",
        Aim::Breakpoint => "breakpoint",
        Aim::Return => "return",
        Aim::Mark => "mark",
        Aim::Trap(_) => "trap",
        Aim::Console => "console",
        Aim::Arrival => "arrival",
        Aim::Watch(_) => "watch",
    }
}

/// Returns the word for what is at an address that isn't in the memory.
#[tactic(auto, unfolding(crate::specs::Json::area_data))]
pub(crate) fn area_word(area: Area) -> &'static str
    ensures { area_data area ≡ string result.now }
{
    match area {
        Area::Nothing => "nothing",
        Area::Halt => "halt",
        Area::Timer => "timer",
        Area::Controller => "controller",
        Area::Serial => "serial",
        Area::PastEnd => "past_end",
    }
}

/// Returns the word for how code was entered.
#[tactic(auto, unfolding(crate::specs::Json::entry_data))]
pub(crate) fn entry_word(entry: Entry) -> &'static str
    ensures { entry_data entry ≡ string result.now }
{
    match entry {
        Entry::Call => "call",
        Entry::Interrupt => "interrupt",
        Entry::Exception => "exception",
    }
}

/// Returns the word for how a frame was reached.
#[tactic(auto, unfolding(crate::specs::Json::reached_data))]
pub(crate) fn reached_word(reached: Reached) -> &'static str
    ensures { reached_data reached ≡ string result.now }
{
    match reached {
        Reached::Here => "here",
        Reached::Call(_) => "call",
        Reached::Trap(_) => "trap",
    }
}

/// Returns the word for why operands have no meaning.
#[tactic(auto, unfolding(crate::specs::Json::why_data))]
pub(crate) fn why_word(why: Why) -> &'static str
    ensures { why_data why ≡ string result.now }
{
    match why {
        Why::NoAddress => "no_address",
        Why::Missing => "missing",
        Why::NoExtent => "no_extent",
        Why::NoLine(_) => "no_line",
        Why::NoCount => "no_count",
        Why::NoRegister => "no_register",
        Why::NoControlRegister => "no_control_register",
        Why::NoEdgeSource => "no_edge_source",
        Why::NoSteps => "no_steps",
        Why::NoCondition => "no_condition",
        Why::NoHits => "no_hits",
        Why::NoMarks => "no_marks",
        Why::NeverMet => "never_met",
        Why::NotOne => "not_one",
        Why::NoBytesThere => "no_bytes_there",
        Why::NoBytes => "no_bytes",
        Why::NoLevel => "no_level",
        Why::NoCommand => "no_command",
        Why::NotWritten => "not_written",
        Why::TooMany => "too_many",
    }
}
