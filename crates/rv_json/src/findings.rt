//! The parts of what `why`, `check`, `bt` and `profile` find.
ghost use Rattle.rv_json.specs.Json.{barrier_data, before_data, breach_data, deviation_data, explained_data, frame_data, handler_data, outermost_data, reason_data, repeated_data, return_data, spent_data, sum_data, unfetched_data, unrestored_data, write_data};
ghost use Rattle.serde_json.specs.Data.{string};

use crate::names::Names;
use crate::object::{object, send, send_kind, send_one};
use crate::sent::ToJson;
use crate::words::{area_word, entry_word, reached_word};
use rv_answers::{
    Barrier, Before, Breach, Deviation, Explained, Frame, Handler, Outermost, Reason, Repeated,
    Return, Spent, Sum, Unfetched, Unrestored, Write, is_guess,
};
use serde::Serializer;

impl ToJson for Barrier {
    ghost json = { λ _ b. barrier_data b };

    #[tactic(auto, unfolding(crate::specs::Json::barrier_data))]
    fn send<S: Serializer>(&self, names: &Names<'_>, out: &mut S) -> Result<(), S::Error> {
        match self {
            Barrier::Protection { mode, entry } => {
                send!(names, out, _: kind = "protection", mode, entry)
            }
            Barrier::Absent(area) => send_one("absent", "area", &area_word(*area), names, out),
        }
    }
}

impl ToJson for Unfetched {
    ghost json = { λ _ u. unfetched_data u };

    #[tactic(auto, unfolding(crate::specs::Json::unfetched_data, crate::specs::Support::Sends::Sends))]
    fn send<S: Serializer>(&self, names: &Names<'_>, out: &mut S) -> Result<(), S::Error> {
        match self {
            Unfetched::Refused(barrier) => send_one("refused", "barrier", barrier, names, out),
            Unfetched::NoInstruction(word) => send_one("no_instruction", "word", word, names, out),
        }
    }
}

impl ToJson for Sum {
    ghost json = { λ _ s. sum_data s };

    #[tactic(auto, unfolding(crate::specs::Json::sum_data))]
    fn send<S: Serializer>(&self, names: &Names<'_>, out: &mut S) -> Result<(), S::Error> {
        send!(names, out, self: base = self.base.number(), value, offset)
    }
}

impl ToJson for Reason {
    ghost json = { λ _ r. reason_data r };

    #[tactic(auto, unfolding(crate::specs::Json::reason_data, crate::specs::Support::Sends::Sends))]
    fn send<S: Serializer>(&self, names: &Names<'_>, out: &mut S) -> Result<(), S::Error> {
        match self {
            Reason::Interrupt(line) => send_one("interrupt", "line", line, names, out),
            Reason::NotFetched(why) => send_one("not_fetched", "why", why, names, out),
            Reason::Call => send_kind("call", names, out),
            Reason::Break => send_kind("break", names, out),
            Reason::Target(sum) => send_one("target", "sum", sum, names, out),
            Reason::Misaligned { size, sum } => {
                send!(names, out, _: kind = "misaligned", size, sum)
            }
            Reason::Refused { sum, barrier } => {
                send!(names, out, _: kind = "refused", sum, barrier)
            }
            Reason::NoRegister(csr) => send_one("no_register", "csr", csr, names, out),
            Reason::ReadOnly(csr) => send_one("read_only", "csr", csr, names, out),
            Reason::MachineOnly => send_kind("machine_only", names, out),
        }
    }
}

impl ToJson for Before {
    ghost json = { λ _ b. before_data b };

    #[tactic(auto, unfolding(crate::specs::Json::before_data))]
    fn send<S: Serializer>(&self, names: &Names<'_>, out: &mut S) -> Result<(), S::Error> {
        send!(names, out, self: address, word, sum)
    }
}

impl ToJson for Handler {
    ghost json = { λ _ h. handler_data h };

    #[tactic(auto, unfolding(crate::specs::Json::handler_data))]
    fn send<S: Serializer>(&self, names: &Names<'_>, out: &mut S) -> Result<(), S::Error> {
        send!(names, out, self: address, mtvec, missing)
    }
}

impl ToJson for Explained {
    ghost json = { λ _ e. explained_data e };

    #[tactic(auto, unfolding(crate::specs::Json::explained_data))]
    fn send<S: Serializer>(&self, names: &Names<'_>, out: &mut S) -> Result<(), S::Error> {
        send!(names, out, self: step, cause, value, address, mode, word, overwritten, writer, reason, before, handler)
    }
}

impl ToJson for Repeated {
    ghost json = { λ _ r. repeated_data r };

    #[tactic(auto, unfolding(crate::specs::Json::repeated_data))]
    fn send<S: Serializer>(&self, names: &Names<'_>, out: &mut S) -> Result<(), S::Error> {
        send!(names, out, self: cause, value, address, times)
    }
}

impl ToJson for Write {
    ghost json = { λ _ w. write_data w };

    #[tactic(auto, unfolding(crate::specs::Json::write_data))]
    fn send<S: Serializer>(&self, names: &Names<'_>, out: &mut S) -> Result<(), S::Error> {
        send!(names, out, self: step, address, word, before, first, second, accessed)
    }
}

impl ToJson for Unrestored {
    ghost json = { λ _ u. unrestored_data u };

    #[tactic(auto, unfolding(crate::specs::Json::unrestored_data))]
    fn send<S: Serializer>(&self, names: &Names<'_>, out: &mut S) -> Result<(), S::Error> {
        send!(names, out, self: register = self.register.number(), entry, now)
    }
}

impl ToJson for Return {
    ghost json = { λ _ r. return_data r };

    #[tactic(auto, unfolding(crate::specs::Json::return_data))]
    fn send<S: Serializer>(&self, names: &Names<'_>, out: &mut S) -> Result<(), S::Error> {
        send!(names, out, self: kind = "return", entry = entry_word(self.entry), from, wanted, target, registers)
    }
}

impl ToJson for Deviation {
    ghost json = { λ _ d. deviation_data d };

    #[tactic(auto, unfolding(crate::specs::Json::deviation_data, crate::specs::Support::Sends::Sends))]
    fn send<S: Serializer>(&self, names: &Names<'_>, out: &mut S) -> Result<(), S::Error> {
        match self {
            Deviation::Below(address) => send_one("below", "address", address, names, out),
            Deviation::Return(back) => back.send(names, out),
        }
    }
}

impl ToJson for Breach {
    ghost json = { λ _ b. breach_data b };

    #[tactic(auto, unfolding(crate::specs::Json::breach_data))]
    fn send<S: Serializer>(&self, names: &Names<'_>, out: &mut S) -> Result<(), S::Error> {
        send!(names, out, self: step, address, deviation)
    }
}

impl ToJson for Frame {
    ghost json = { λ _ f. frame_data f };

    #[tactic(auto, unfolding(crate::specs::Json::frame_data))]
    fn send<S: Serializer>(&self, names: &Names<'_>, out: &mut S) -> Result<(), S::Error> {
        send!(names, out, self: address, sp, reached = reached_word(self.reached), is_guess = is_guess(self.reached))
    }
}

impl ToJson for Outermost {
    ghost json = { λ _ o. outermost_data o };

    #[tactic(auto, unfolding(crate::specs::Json::outermost_data, crate::specs::Support::Sends::Sends))]
    fn send<S: Serializer>(&self, names: &Names<'_>, out: &mut S) -> Result<(), S::Error> {
        match self {
            Outermost::Start => send_kind("start", names, out),
            Outermost::Resumed => send_kind("resumed", names, out),
            Outermost::NoFunction => send_kind("no_function", names, out),
            Outermost::NoRa => send_kind("no_ra", names, out),
            Outermost::NoSp => send_kind("no_sp", names, out),
            Outermost::NoMepc => send_kind("no_mepc", names, out),
            Outermost::Outside(address) => send_one("outside", "address", address, names, out),
            Outermost::Below(sp) => send_one("below", "sp", sp, names, out),
            Outermost::More => send_kind("more", names, out),
        }
    }
}

impl ToJson for Spent {
    ghost json = { λ _ s. spent_data s };

    #[tactic(auto, unfolding(crate::specs::Json::spent_data))]
    fn send<S: Serializer>(&self, names: &Names<'_>, out: &mut S) -> Result<(), S::Error> {
        send!(names, out, self: line, address, steps)
    }
}
