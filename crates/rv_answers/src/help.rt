//! The text of the help, and of a word that is no command; and the nearest of some names to a word.
use crate::Printer;
use crate::command::{Command, command_row, command_word, commands};
use crate::shown::Shown;
use rv_base::look_up;
use std::alloc::Global;
use strsim::generic_levenshtein;

/// The name that takes the fewest edits to become a word, of those that were offered.
#[derive(Drop)]
pub(crate) struct Nearest<'a> {
    alloc: Global,
    word: &'a [u8],
    name: &'a [u8],
    edits: usize,
}

/// The longest word for which a name is looked for.
const LONGEST: usize = 64;

impl<'a> Nearest<'a> {
    /// Returns a search for the nearest name to a word. A name is near if fewer than half of the word's bytes
    /// are edited.
    pub(crate) fn new(alloc: Global, word: &'a [u8]) -> Nearest<'a> {
        Nearest {
            alloc,
            word,
            name: b"",
            edits: word.len() / 2 + 1,
        }
    }

    /// Offers a name.
    pub(crate) fn offer(&mut self, name: &'a [u8]) {
        if self.word.len() > LONGEST || name.len() > LONGEST {
            return;
        }
        if let Ok(edits) = generic_levenshtein(self.alloc, self.word, name)
            && edits < self.edits
        {
            self.edits = edits;
            self.name = name;
        }
    }

    /// Appends that the nearest name is near, if there is one.
    pub(crate) fn append(&self, text: &mut Printer) {
        if !self.name.is_empty() {
            write!(text, "; `{}` is near", Shown(self.name));
        }
    }
}

/// Appends the list of all commands.
fn append_commands(text: &mut Printer) {
    for (_, row) in commands() {
        writeln!(text, "{:<30}{}", row.form, row.does);
    }
    text.say(
        "An empty line repeats the last step or list command, or takes a step. WHERE is a line's number, 0x and a\nnumber, a name of the source, a register or pc, also with +N or -N. Only events change the board: there is no\ncommand that sets a register or memory.\n",
    );
}

/// Appends what a command does, with an example, or the list of all.
pub(crate) fn append_help(command: Option<Command>, text: &mut Printer) {
    let Some(command) = command else {
        return append_commands(text);
    };
    if let Some(row) = command_row(command_word(command).as_bytes()) {
        let example = row.example;
        writeln!(text, "{}: {}\n  example: {example}", row.form, row.does);
    }
}

/// Offers the words of all commands: those of the help, or the others.
fn offer_commands(are_of_help: bool, nearest: &mut Nearest<'_>) {
    for (words, _) in commands() {
        for (number, word) in words.split_whitespace().enumerate() {
            if (number == 0) == are_of_help {
                nearest.offer(word.as_bytes());
            }
        }
    }
}

/// Expands to words, each with what to type here.
macro_rules! meanings {
    ($([$($word:literal)+] $meaning:literal)+) => { [$($(($word, $meaning),)+)+] };
}

/// Words of gdb, with what to type here.
static OTHERS: [(&str, &str); 21] = meanings! {
    ["info"] "`r` shows the registers, `b` the breakpoints, `t` the traps, `dev` the devices"
    ["print"] "`r REG` shows a register, `p CSR` a control register, `m WHERE` memory"
    ["examine"] "`m WHERE N w` shows N words of memory"
    ["disassemble" "disas"] "`i WHERE` shows an instruction, `l WHERE` lines of the source"
    ["layout"] "`l` lists the source, `r` shows the registers"
    ["stepi"] "`s` takes a step"
    ["nexti"] "`next` takes a call as one step"
    ["advance" "tbreak"] "`until WHERE` goes on up to a place"
    ["rwatch" "awatch"] "`watch [WHERE]` has runs stop where a word changes"
    ["condition"] "`b WHERE if REG = V` stops there only if it holds"
    ["ignore"] "`b WHERE after N` stops there from the Nth time on"
    ["rs" "rsi" "reverse-step" "reverse-stepi"] "`u` goes back"
    ["start"] "the program stands at its first instruction; `u 9999999999` goes back to it"
    ["set"]
        "no command sets a register or memory: only steps and inputs (`rx`, `line`) change the board"
    ["kill"] "`q` ends the lab"
};

/// Returns what to type here in place of a word of gdb: `x/4x` and the like show memory.
fn meant(word: &[u8]) -> Option<&'static str> {
    if word.starts_with(b"x/") {
        return Some("`m WHERE N w` shows N words of memory");
    }
    look_up(&OTHERS, word)
}

/// Appends that a word is no command, and what is meant or which is the nearest.
pub(crate) fn append_unknown(word: &[u8], text: &mut Printer) {
    write!(text, "`{}` is no command", Shown(word));
    if let Some(meant) = meant(word) {
        return writeln!(text, ": {meant}");
    }
    let mut nearest = Nearest::new(text.alloc(), word);
    offer_commands(false, &mut nearest);
    offer_commands(true, &mut nearest);
    nearest.append(text);
    text.say("; `help` shows them all\n");
}
