//! The text of a reply.
ghost use Rattle.std.specs.Prelude.{◌≡◌, ◌≤◌, drop, take};
ghost use Rattle.rv_answers.specs.declared.answer.Answer.TheVariants as answers;
ghost use Rattle.rv_lab.specs.State.{board};

use crate::lab::{Lab, Reply};
use rv_answers::{Answer, Lines, Printer};

impl Lab {
    /// Returns the source with its lines and labels.
    pub(crate) fn lines(&self) -> Lines<'_> {
        Lines {
            source: &self.source,
            listing: self.listing(),
        }
    }

    /// Appends the line of the next instruction.
    pub(crate) fn append_here(&self, text: &mut Printer) {
        let here = self.place_of(self.board().pc());
        self.lines().append_place(here, text);
        text.end();
    }

    /// Returns the bytes that the console got meanwhile.
    pub fn console_of(&self, reply: &Reply) -> &[u8]
        ensures { result.now ≡ drop reply.now.from (take reply.now.to (board self.now).machine.bus.serial.sent) }
    {
        let console = self.board().console();
        let told = console.split_at(reply.to.min(console.len())).0;
        told.split_at(reply.from.min(told.len())).1
    }

    /// Appends the text of a reply of this lab.
    pub fn append_reply(&self, reply: &Reply, text: &mut Printer)
        ensures quiet { reply.now.answer ≡ answers.Nothing → reply.now.to ≤ reply.now.from → text.new ≡ text.old }
    {
        if matches!(reply.answer, Answer::Nothing) && reply.to <= reply.from {
            return;
        }
        let console = self.console_of(reply);
        self.lines().append_reply(&reply.answer, console, text);
    }
}
