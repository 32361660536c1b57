//! What the page keeps between two calls.
ghost use Rattle.std.specs.Prelude.{◌≡◌, ◌≤◌, ◌==◌, ◌⊎◌, not, max, [], None, IfErr, IfOk, IfSome, OnOk, is_some};
ghost use Rattle.rv_lab.specs.State.{setup};
ghost use Rattle.rv_lab.specs.Commands.{GoesOn, IsWithin};
ghost use Rattle.rv_lab.specs.Runs.{Obeys, reply_on, reply_to};
ghost use Rattle.rv_base.specs.Lines.{lines};
ghost use Rattle.rv_handle.specs.Pages.{IsOpened, IsRefused, OfLabs, TellsFault, blank, empty, in_pieces, looks, reply_text, sent, taken, told_as};

use crate::looks::append_looks;
use crate::replies::{fill, show};
use rv_base::NoMemory;
use rv_json::source_json;
use rv_lab::{Lab, LabFault, Next, Printer, Sizes, append_diagnosis};
use std::alloc::Global;

/// A lab or none, the text of the last answer for people, and its JSON.
#[derive(Drop)]
pub struct State {
    pub lab: Option<Lab>,
    pub answer: Printer,
    pub json: Printer,
}

/// The codes of a load, beside `NO_MEMORY`.
const OPEN: u32 = 0;

const REFUSED: u32 = 1;

/// The codes of a command.
const MORE: u32 = 0;

const RUNNING: u32 = 1;

const SAVE: u32 = 2;

const QUIT: u32 = 3;

const NO_MEMORY: u32 = 4;

const NO_LAB: u32 = 5;

/// Returns the code of what follows a command.
fn code_of(next: Result<Next, NoMemory>) -> u32
    ensures codes { result ≤ 4 }
    ensures follows { IfOk next (λ n. result ≡ (told_as n).0) }
    ensures memory { IfErr next (λ e. result ≡ 4) }
{
    match next {
        Ok(Next::More) => MORE,
        Ok(Next::Running) => RUNNING,
        Ok(Next::Save) => SAVE,
        Ok(Next::Quit) => QUIT,
        Err(NoMemory) => NO_MEMORY,
    }
}

/// Writes the JSON of a fault, which a rejected source has.
fn write_fault(source: &[u8], fault: LabFault, json: &mut Printer) -> Result<(), NoMemory>
    requires { json.old ≡ blank }
    ensures { OnOk result (TellsFault source.now fault json.new.bytes) }
{
    match fault {
        LabFault::Source(_) => {
            let text = source_json(json.alloc(), source)?;
            fill(&text, json)
        }
        _ => Ok(()),
    }
}

impl State {
    /// Returns a state without a lab and with empty texts.
    pub fn new(alloc: Global) -> State
        ensures { result ≡ empty }
    {
        State {
            lab: None,
            answer: Printer::new(alloc),
            json: Printer::new(alloc),
        }
    }

    /// Makes both texts empty.
    fn clear(&mut self)
        ensures { self.new ≡ record self.old { answer = blank; json = blank } }
    {
        self.answer.clear();
        self.json.clear();
    }

    /// Opens a lab, or says in the text why there is none.
    pub fn load(&mut self, alloc: Global, source: &[u8], inputs: &[u8], sizes: Sizes) -> u32
        ensures code { (result ≡ 0) ⊎ (result ≡ 1) ⊎ (result ≡ 4) }
        ensures lab { is_some self.new.lab ≡ (result == 0) }
        ensures opened { result ≡ 0 → IfSome self.new.lab
            (IsOpened source.now inputs.now sizes.pages sizes.slots) }
        ensures refused { result ≡ 1 → IsRefused source.now inputs.now sizes.pages sizes.slots self.new.json.bytes }
        ensures quiet { result ≡ 0 → self.new.answer.bytes ≡ [] }
    {
        self.lab = None;
        self.clear();
        match Lab::open(alloc, source, inputs, sizes) {
            Ok(lab) => {
                self.lab = Some(lab);
                OPEN
            }
            Err(LabFault::OutOfMemory) => NO_MEMORY,
            Err(fault) => {
                append_diagnosis("source", source, fault, &mut self.answer);
                match write_fault(source, fault, &mut self.json) {
                    Ok(()) => REFUSED,
                    Err(NoMemory) => NO_MEMORY,
                }
            }
        }
    }

    /// Executes a command line, in at most `most` steps.
    #[tactic(auto, using(crate::proofs::Replying::told_reply, crate::proofs::Replying::told_next))]
    pub fn command(&mut self, line: &[u8], most: u64) -> u32
        ensures code { result ≤ 5 }
        ensures none { is_some self.old.lab ≡ not (result == 5) }
        ensures lab { is_some self.new.lab ≡ is_some self.old.lab }
        ensures setup { OfLabs self.old self.new (λ l m. setup m ≡ setup (in_pieces most l)) }
        ensures obeys { result ≤ 3 → OfLabs self.old self.new (λ l. Obeys line.now (in_pieces most l)) }
        ensures follows { result ≤ 3 → OfLabs self.old self.new (λ l m. result
            ≡ (told_as (reply_to line.now (in_pieces most l) m).next).0) }
        ensures json { result ≤ 3 → OfLabs self.old self.new
            (λ l m. self.new.json.bytes ≡ reply_text m (reply_to line.now (in_pieces most l) m)) }
        ensures bound { OfLabs self.old self.new (IsWithin (max most 1)) }
    {
        self.clear();
        match &mut self.lab {
            Some(lab) => {
                lab.set_piece(most);
                let Ok(reply) = lab.answer(line) else {
                    return NO_MEMORY;
                };
                code_of(show(lab, reply, &mut self.json, &mut self.answer))
            }
            None => NO_LAB,
        }
    }

    /// Answers command lines that ask for nothing but an answer.
    pub fn look(&mut self, text: &[u8]) -> u32
        ensures code { (result ≡ 0) ⊎ (result ≡ 4) ⊎ (result ≡ 5) }
        ensures none { is_some self.old.lab ≡ not (result == 5) }
        ensures lab { self.new.lab ≡ self.old.lab }
        ensures looks { result ≡ 0 → IfSome self.old.lab (λ l. self.new.answer.bytes ≡ looks l (lines text.now)) }
    {
        self.clear();
        match &self.lab {
            Some(lab) => match append_looks(lab, text, &mut self.answer) {
                Ok(()) => MORE,
                Err(NoMemory) => NO_MEMORY,
            },
            None => NO_LAB,
        }
    }

    /// Goes on with a run, by at most `most` steps.
    #[tactic(auto, using(crate::proofs::Bounds::piece_within, crate::proofs::Replying::told_reply, crate::proofs::Replying::told_next))]
    pub fn go_on(&mut self, most: u64) -> u32
        ensures code { result ≤ 5 }
        ensures none { is_some self.old.lab ≡ not (result == 5) }
        ensures lab { is_some self.new.lab ≡ is_some self.old.lab }
        ensures setup { OfLabs self.old self.new (λ l m. setup m ≡ setup (in_pieces most l)) }
        ensures continues { result ≤ 3 → OfLabs self.old self.new
            (λ l. GoesOn (in_pieces most l)) }
        ensures follows { result ≤ 3 → OfLabs self.old self.new (λ l m. result ≡ (told_as (reply_on (in_pieces most l) m).next).0) }
        ensures quiet { result ≤ 3 → IfSome self.old.lab (λ l. l.plan ≡ None → self.new.answer.bytes ≡ []) }
        ensures json { result ≤ 3 → OfLabs self.old self.new
            (λ l m. self.new.json.bytes ≡ reply_text m (reply_on (in_pieces most l) m)) }
        ensures bound { OfLabs self.old self.new (IsWithin (max most 1)) }
    {
        self.clear();
        match &mut self.lab {
            Some(lab) => {
                lab.set_piece(most);
                let Ok(reply) = lab.go_on() else {
                    return NO_MEMORY;
                };
                code_of(show(lab, reply, &mut self.json, &mut self.answer))
            }
            None => NO_LAB,
        }
    }

    /// Returns the number of steps that were taken.
    pub fn steps(&self) -> u64
        ensures { result ≡ taken self.now }
    {
        match &self.lab {
            Some(lab) => lab.steps(),
            None => 0,
        }
    }

    /// Returns the bytes that the console has got.
    pub fn console(&self) -> &[u8]
        ensures { result.now ≡ sent self.now }
    {
        match &self.lab {
            Some(lab) => lab.board().console(),
            None => b"",
        }
    }
}
