//! What is shown after each command that moved the board.
use rv_answers::{Answer, Printer};
use rv_base::NoMemory;
use rv_lab::{Lab, Next, Reply};
use std::alloc::Global;

/// The operands of `display` that are shown again.
#[derive(Drop)]
pub struct Displays {
    alloc: Global,
    shown: Vec<Vec<u8>>,
}

/// Returns the place of a text among some.
fn place_of(texts: &[Vec<u8>], text: &[u8]) -> Option<usize> {
    for index in 0..texts.len() {
        if texts[index].as_slice() == text {
            return Some(index);
        }
    }
    None
}

/// Returns what `display` answers to an operand.
fn answer_of(alloc: Global, lab: &Lab, operand: &[u8]) -> Result<Option<Answer>, NoMemory> {
    let mut line = Vec::from_slice(alloc, b"display ")?;
    line.extend_from_slice(operand)?;
    lab.look(&line)
}

/// Returns whether an answer is one of `display`.
fn is_display(answer: &Answer) -> bool {
    matches!(answer, Answer::Display(_))
}

/// Returns whether `display` shows an operand.
fn is_shown(alloc: Global, lab: &Lab, operand: &[u8]) -> Result<bool, NoMemory> {
    match answer_of(alloc, lab, operand)? {
        Some(answer) => Ok(is_display(&answer)),
        None => Ok(false),
    }
}

/// Appends an answer of a lab.
fn append(lab: &Lab, answer: Answer, text: &mut Printer) {
    let reply = Reply {
        next: Next::More,
        answer,
        from: 0,
        to: 0,
    };
    lab.append_reply(&reply, text);
}

/// Appends what `display` answers to an operand.
fn append_one(
    alloc: Global,
    lab: &Lab,
    operand: &[u8],
    text: &mut Printer,
) -> Result<(), NoMemory> {
    if let Some(answer) = answer_of(alloc, lab, operand)? {
        append(lab, answer, text);
    }
    Ok(())
}

impl Displays {
    /// Returns those of a talk that begins: none.
    pub fn new(alloc: Global) -> Displays {
        Displays {
            alloc,
            shown: Vec::new(alloc),
        }
    }

    /// Keeps an operand, if it has a meaning and isn't kept yet.
    pub fn add(&mut self, lab: &Lab, operand: &[u8]) -> Result<(), NoMemory> {
        if place_of(&self.shown, operand).is_some() {
            return Ok(());
        }
        if !is_shown(self.alloc, lab, operand)? {
            return Ok(());
        }
        let kept = Vec::from_slice(self.alloc, operand)?;
        match self.shown.push(kept) {
            Ok(()) => Ok(()),
            Err(_) => Err(NoMemory),
        }
    }

    /// Forgets an operand, or all where it is empty. Returns whether there was one.
    pub fn remove(&mut self, operand: &[u8]) -> bool {
        let count = self.shown.len();
        if operand.is_empty() {
            self.shown.clear();
        } else if let Some(place) = place_of(&self.shown, operand)
            && place < count
        {
            let _ = self.shown.remove(place);
        }
        self.shown.len() < count
    }

    /// Appends the values of all that are kept.
    pub fn append(&self, lab: &Lab, text: &mut Printer) -> Result<(), NoMemory> {
        for operand in &self.shown {
            append_one(self.alloc, lab, operand, text)?;
        }
        Ok(())
    }
}
