//! Lines of gdb's `monitor`: those that look are the lab's.
ghost use Rattle.std.specs.Prelude.{OnOk};
ghost use Rattle.rv_gdb.specs.Moves.{IsPacket};

use crate::target::Target;
use rv_answers::Answer;
use rv_base::{NoMemory, first_word};
use rv_lab::{Next, Printer, Reply};
use rv_replies::append_hex_text;
use rv_why::explain;

/// What is told of a line that would move the board, or change its breakpoints or inputs.
const REFUSED: &[u8] =
    b"that moves the board, or changes its breakpoints or inputs, without gdb: use stepi, continue, break, reverse-stepi\n";

impl Target {
    /// Returns the text of an answer.
    fn text_of(&self, answer: Answer) -> Printer {
        let mut text = Printer::new(self.alloc);
        let reply = Reply {
            next: Next::More,
            answer,
            from: 0,
            to: 0,
        };
        self.lab.append_reply(&reply, &mut text);
        text
    }

    /// Returns why the last trap came.
    pub(crate) fn explanation(&self) -> Result<Printer, NoMemory> {
        let explanation = explain(self.lab.recording())?;
        Ok(self.text_of(Answer::Explained(explanation)))
    }

    /// Appends the answer to a line that doesn't look: why the last trap came, or that the line is refused.
    fn append_other(&self, line: &[u8], contents: &mut Vec<u8>) -> Result<(), NoMemory> {
        if first_word(line).is_some_and(|words| words.0 == b"why".as_slice()) {
            let why = self.explanation()?;
            append_hex_text(contents, why.bytes())
        } else {
            append_hex_text(contents, REFUSED)
        }
    }

    /// Appends the answer to a line: the lab's, if it looks.
    fn append_line(&self, line: &[u8], contents: &mut Vec<u8>) -> Result<(), NoMemory> {
        match self.lab.look(line)? {
            Some(answer) => {
                let text = self.text_of(answer);
                append_hex_text(contents, text.bytes())
            }
            None => self.append_other(line, contents),
        }
    }

    /// Answers a line, by a packet. The target stays as it is.
    #[tactic(auto, using(crate::proofs::Told::packet))]
    pub(crate) fn answer_line(&self, line: &[u8], out: &mut Vec<u8>) -> Result<(), NoMemory>
        ensures { OnOk result (IsPacket out.old.items out.new.items) }
    {
        let mut contents = Vec::new(self.alloc);
        self.append_line(line, &mut contents)?;
        if contents.is_empty() {
            contents.extend_from_slice(b"OK")?;
        }
        self.say(&contents, out)
    }
}
