//! The commands over a session, and their answers.
ghost use Rattle.std.specs.Prelude.{◌≡◌, ◌≢◌, ◌++◌, ◌+◌, ◌-◌, ◌≤◌, Some, length, IfOk, OnOk, OnErr, vec_len, vec_capacity};
ghost use Rattle.rv_base.specs.Digits.{hex};
ghost use Rattle.rv_monitor.specs.Views.{line};
ghost use Rattle.rv_program.specs.Program.{value_of};
ghost use Rattle.rv_commands.specs.Named.{IsNamed};
ghost use Rattle.rv_commands.specs.declared.command.Command.{Command};
ghost use Rattle.rv_monitor.specs.Support.Answers.{AppendsAnswer, next_of};
ghost use Rattle.rv_monitor.specs.Commands.{Leaves, LeavesRefused, answer, word_of, command_in};
ghost use Rattle.rv_monitor.specs.Room.{LacksRoom};

use crate::session::Session;
use crate::stop::Stop;
use crate::views::{
    STOP_BYTES, write_control_register, write_edges, write_instruction, write_memory,
    write_registers, write_stop, write_traps,
};
use rv_base::{NoMemory, append_within, word_digits};
use rv_cache::Decoded;
use rv_commands::{Command, SymbolLookup, read_command};
use rv_program::Program;
use rv_ram::ByteMemory;

/// Whether commands follow a command.
#[derive(Clone, Copy, PartialEq, Eq, Debug)]
pub enum Next {
    /// The next command follows.
    More,
    /// No command follows.
    Quit,
}

/// The largest number of bytes of a stop's word.
const WORD_BYTES: usize = 6;

/// The largest number of bytes of a breakpoint's line.
const BREAK_BYTES: usize = 15;

/// Returns the word of a stop.
fn stop_word(stop: Stop) -> &'static str
    ensures word { result.now ≡ word_of stop }
    ensures short { length result.now ≤ WORD_BYTES }
{
    match stop {
        Stop::Halted => "halted",
        Stop::Breakpoint => "break",
        Stop::Limit => "limit",
    }
}

/// Returns whether commands follow a command.
fn next_after<'a>(command: &Command<'a>) -> Next
    ensures { result ≡ next_of (Some command.now) }
{
    match command {
        Command::Quit => Next::Quit,
        _ => Next::More,
    }
}

/// Appends a line of a word and an address, to a text that has room for it.
fn append_address(text: &mut Vec<u8>, word: &[u8], addr: u32)
    requires { vec_len text.old + length word.now + 9 ≤ vec_capacity text.old }
    ensures { text.new.items ≡ text.old.items ++ line (word.now ++ hex 8 addr) }
{
    append_within(text, word);
    append_within(text, &word_digits(addr));
    append_within(text, b"\n");
}

/// The symbols of a program, for the addresses in commands.
#[derive(Drop)]
struct ProgramSymbols<'a>(&'a Program);

impl<'a> SymbolLookup for ProgramSymbols<'a> {
    ghost symbols = { λ symbols. value_of symbols.0.now.symbols };

    fn symbol(&self, name: &[u8]) -> Option<i64> {
        self.0.symbol(name)
    }
}

impl<M: ByteMemory, C: Decoded> Session<M, C> {
    /// Executes `s`: takes steps, and answers why they ended.
    fn answer_step(&mut self, count: u64, text: &mut Vec<u8>) -> Result<(), NoMemory>
        ensures { AppendsAnswer M.wants_room (Some (Command.Step count))
            (vec_capacity text.old - vec_len text.old) self.old self.new text.old.items text.new.items result }
    {
        text.reserve(WORD_BYTES + STOP_BYTES)?;
        let stop = self.step(count)?;
        write_stop(self.board(), stop_word(stop), text)
    }

    /// Executes `c`: takes steps up to a breakpoint, or all that are left, and answers why they ended.
    fn answer_go(&mut self, count: Option<u64>, text: &mut Vec<u8>) -> Result<(), NoMemory>
        ensures { AppendsAnswer M.wants_room (Some (Command.Go count))
            (vec_capacity text.old - vec_len text.old) self.old self.new text.old.items text.new.items result }
    {
        text.reserve(WORD_BYTES + STOP_BYTES)?;
        let most = count.unwrap_or(self.limit());
        let stop = self.go(most)?;
        write_stop(self.board(), stop_word(stop), text)
    }

    /// Executes `b`: sets a breakpoint, and answers its address.
    fn answer_set(&mut self, addr: u32, text: &mut Vec<u8>) -> Result<(), NoMemory>
        ensures { AppendsAnswer M.wants_room (Some (Command.SetBreak addr))
            (vec_capacity text.old - vec_len text.old) self.old self.new text.old.items text.new.items result }
    {
        text.reserve(BREAK_BYTES)?;
        self.set_break(addr)?;
        append_address(text, b"break ", addr);
        Ok(())
    }

    /// Executes `d`: removes a breakpoint, and answers its address, or that there was none.
    fn answer_clear(&mut self, addr: u32, text: &mut Vec<u8>) -> Result<(), NoMemory>
        ensures { AppendsAnswer M.wants_room (Some (Command.ClearBreak addr))
            (vec_capacity text.old - vec_len text.old) self.old self.new text.old.items text.new.items result }
    {
        text.reserve(BREAK_BYTES)?;
        if self.clear_break(addr) {
            append_address(text, b"clear ", addr);
        } else {
            append_within(text, b"no break\n");
        }
        Ok(())
    }

    /// Executes a command, and appends its answer.
    fn answer<'a>(&mut self, command: Command<'a>, text: &mut Vec<u8>) -> Result<(), NoMemory>
        requires { IsNamed command }
        ensures { AppendsAnswer M.wants_room (Some command.entry) (vec_capacity text.old - vec_len text.old)
            self.old self.new text.old.items text.new.items result }
    {
        let board = self.board();
        match command {
            Command::Step { count } => self.answer_step(count, text),
            Command::Go { count } => self.answer_go(count, text),
            Command::SetBreak { addr } => self.answer_set(addr, text),
            Command::ClearBreak { addr } => self.answer_clear(addr, text),
            Command::Registers => write_registers(board, text),
            Command::ControlRegister { name, csr } => {
                write_control_register(board, name.bytes(), csr, text)
            }
            Command::Memory { addr, count } => write_memory(board, addr, count, text),
            Command::Instruction { addr } => write_instruction(board, addr, text),
            Command::Traps => write_traps(board, text),
            Command::Edges { source } => write_edges(board, source, text),
            Command::Quit | Command::Nothing => Ok(()),
        }
    }

    /// Executes a command line, and appends its answer to `text`.
    ///
    /// Room for the longest answer of its kind is made first.
    ///
    /// # Errors
    ///
    /// `NoMemory` if memory runs out. `text` is left as it was, and nothing has changed but the steps taken
    /// so far, which are none if there was no room for the answer. A command that only looks at the board
    /// fails only if there was no room for the answer.
    #[tactic(auto, using(crate::proofs::Silent::no_quit, crate::proofs::Silent::no_nothing, crate::proofs::Silent::quit_next, crate::proofs::Silent::more_next))]
    pub fn command(&mut self, line: &[u8], text: &mut Vec<u8>) -> Result<Next, NoMemory>
        ensures quits { command_in line.now self.old ≡ Some Command.Quit
            → IfOk result (λ next. next ≡ Next.Quit) }
        ensures more { command_in line.now self.old ≢ Some Command.Quit
            → IfOk result (λ next. next ≡ Next.More) }
        ensures ok { OnOk result (Leaves (command_in line.now self.old) self.old self.new) }
        ensures text { OnOk result (text.new.items ≡ text.old.items
            ++ answer (command_in line.now self.old) self.old self.new) }
        ensures err { OnErr result (LeavesRefused (command_in line.now self.old) self.old self.new) }

        // `q`, and a line that says nothing, are never refused.
        ensures silent { OnErr result ((command_in line.now self.old ≢ Some Command.Quit)
            × (command_in line.now self.old ≢ Some Command.Nothing)) }
        ensures room { OnErr result
            (LacksRoom M.wants_room (command_in line.now self.old) (vec_capacity text.old - vec_len text.old)
            self.old self.new) }
        ensures unwritten { OnErr result (text.new.items ≡ text.old.items) }
    {
        let Some(command) = read_command(line, &ProgramSymbols(self.program())) else {
            text.extend_from_slice(b"?\n")?;
            return Ok(Next::More);
        };
        let next = next_after(&command);
        self.answer(command, text)?;
        Ok(next)
    }
}
