//! The parts of what the commands answer: places, registers, protection, steps and what is watched.
ghost use Rattle.rv_json.specs.Json.{bits_data, break_condition_data, change_data, option_data, place_data, range_data, region_data, register_data, row_data, source_data, standing_data, step_data, target_data, text_data, trap_data, watch_data};
ghost use Rattle.serde_json.specs.Data.{string};

use crate::names::Names;
use crate::object::{object, send, send_one};
use crate::sent::{Text, ToJson, send_null};
use rv_answers::{
    Bits, BreakCondition, Change, Many, Place, Range, Region, RegisterValue, Row, SourceState,
    Standing, Step, Target, Trap, Watch,
};
use serde::Serializer;

impl ToJson for Place {
    ghost json = { λ ls p. place_data ls p };

    #[tactic(auto, unfolding(crate::specs::Json::place_data, crate::specs::Support::Sends::Sends))]
    fn send<S: Serializer>(&self, names: &Names<'_>, out: &mut S) -> Result<(), S::Error> {
        send!(names, out, self: address, label = names.label(self), distance, line, word)
    }
}

impl ToJson for Standing {
    ghost json = { λ ls s. standing_data ls s };

    #[tactic(auto, unfolding(crate::specs::Json::standing_data))]
    fn send<S: Serializer>(&self, names: &Names<'_>, out: &mut S) -> Result<(), S::Error> {
        send!(names, out, self: kind = "where", steps, mode, halted, here)
    }
}

impl ToJson for Row {
    ghost json = { λ _ r. row_data r };

    #[tactic(auto, unfolding(crate::specs::Json::row_data))]
    fn send<S: Serializer>(&self, names: &Names<'_>, out: &mut S) -> Result<(), S::Error> {
        send!(names, out, self: number, is_here, is_marked, address, word, has_more)
    }
}

impl ToJson for Trap {
    ghost json = { λ ls t. trap_data ls t };

    #[tactic(auto, unfolding(crate::specs::Json::trap_data))]
    fn send<S: Serializer>(&self, names: &Names<'_>, out: &mut S) -> Result<(), S::Error> {
        send!(names, out, self: cause, value, place, times)
    }
}

impl ToJson for RegisterValue {
    ghost json = { λ _ r. register_data r };

    #[tactic(auto, unfolding(crate::specs::Json::register_data))]
    fn send<S: Serializer>(&self, names: &Names<'_>, out: &mut S) -> Result<(), S::Error> {
        send!(names, out, self: kind = "register", register = self.register.number(), value)
    }
}

impl ToJson for Bits {
    ghost json = { λ _ b. bits_data b };

    #[tactic(auto, unfolding(crate::specs::Json::bits_data))]
    fn send<S: Serializer>(&self, names: &Names<'_>, out: &mut S) -> Result<(), S::Error> {
        match self {
            Bits::Status {
                mie,
                mpie,
                mpp,
                mprv,
                tw,
            } => { send!(names, out, _: kind = "status", mie, mpie, mpp, mprv, tw) }
            Bits::Lines {
                software,
                timer,
                external,
            } => { send!(names, out, _: kind = "lines", software, timer, external) }
            Bits::Cause(cause) => send_one("cause", "cause", cause, names, out),
        }
    }
}

impl ToJson for SourceState {
    ghost json = { λ _ s. source_data s };

    #[tactic(auto, unfolding(crate::specs::Json::source_data))]
    fn send<S: Serializer>(&self, names: &Names<'_>, out: &mut S) -> Result<(), S::Error> {
        send!(names, out, self: source, is_high, is_pending, is_claimed, is_enabled, priority, edges)
    }
}

impl ToJson for Range {
    ghost json = { λ _ r. range_data r };

    #[tactic(auto, unfolding(crate::specs::Json::range_data))]
    fn send<S: Serializer>(&self, names: &Names<'_>, out: &mut S) -> Result<(), S::Error> {
        send!(names, out, self: first, last)
    }
}

impl ToJson for Region {
    ghost json = { λ _ r. region_data r };

    #[tactic(auto, unfolding(crate::specs::Json::region_data, crate::specs::Json::rights_data))]
    fn send<S: Serializer>(&self, names: &Names<'_>, out: &mut S) -> Result<(), S::Error> {
        send!(names, out, self: entry, range, user = object!((self.user): read, write, execute),
            machine = object!((self.machine): read, write, execute), is_locked)
    }
}

impl ToJson for Target {
    ghost json = { λ _ t. target_data t };

    #[tactic(auto, unfolding(crate::specs::Json::target_data))]
    fn send<S: Serializer>(&self, names: &Names<'_>, out: &mut S) -> Result<(), S::Error> {
        match self {
            Target::Register(register) => send!(names, out, _: register = register.number()),
            Target::Word(address) => send!(names, out, _: address),
        }
    }
}

impl ToJson for Watch {
    ghost json = { λ _ w. watch_data w };

    #[tactic(auto, unfolding(crate::specs::Json::watch_data))]
    fn send<S: Serializer>(&self, names: &Names<'_>, out: &mut S) -> Result<(), S::Error> {
        send!(names, out, self: target, value)
    }
}

impl ToJson for Change {
    ghost json = { λ _ c. change_data c };

    #[tactic(auto, unfolding(crate::specs::Json::change_data))]
    fn send<S: Serializer>(&self, names: &Names<'_>, out: &mut S) -> Result<(), S::Error> {
        send!(names, out, self: target, before, value)
    }
}

impl ToJson for Step {
    ghost json = { λ ls s. step_data ls s };

    #[tactic(auto, unfolding(crate::specs::Json::step_data))]
    fn send<S: Serializer>(&self, names: &Names<'_>, out: &mut S) -> Result<(), S::Error> {
        send!(names, out, self: number, place, trap, changed)
    }
}

/// A text, if there is one.
#[derive(Clone, Copy)]
pub(crate) struct MaybeText<'a>(pub(crate) &'a Option<Many<u8>>);

impl ToJson for MaybeText<'_> {
    ghost json = { λ _ t. option_data text_data t.0.now };

    #[tactic(auto, unfolding(crate::specs::Json::option_data))]
    fn send<S: Serializer>(&self, names: &Names<'_>, out: &mut S) -> Result<(), S::Error> {
        match self.0 {
            Some(text) => Text(text).send(names, out),
            None => send_null(out),
        }
    }
}

impl ToJson for BreakCondition {
    ghost json = { λ _ c. break_condition_data c };

    #[tactic(auto, unfolding(crate::specs::Json::break_condition_data))]
    fn send<S: Serializer>(&self, names: &Names<'_>, out: &mut S) -> Result<(), S::Error> {
        send!(names, out, self: address, text = MaybeText(&self.text), passes)
    }
}
