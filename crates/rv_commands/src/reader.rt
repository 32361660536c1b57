//! Reads commands.
ghost use Rattle.std.specs.Prelude.{◌≡◌, ◌≤◌, ◌<◌, ℕ, ℤ, List, Option, codes, IfSome};
ghost use Rattle.std.specs.Option.{option_copied};
ghost use Rattle.rv_base.specs.Words.{words};
ghost use Rattle.rv_commands.specs.Commands.{number_between, command_by, command_of};
ghost use Rattle.rv_commands.specs.Named.{IsNamed};
ghost use Rattle.rv_commands.specs.Support.Operands.{alone, only, number_alone, address_alone};

use crate::address::address;
use crate::{Command, SymbolLookup};
use rv_base::{LINE_LIMIT, begins_comment, decimal, first_word, has_word};
use rv_isa::csr_named;
use rv_plic::Source;
use rv_tokens::Name;

/// The largest number of steps in a command.
const MOST_STEPS: u64 = 1_000_000_000;

/// Reads a decimal number from `low` to `high`.
#[tactic(auto, unfolding(crate::specs::Commands::number_between))]
fn number_between(low: u64, high: u64, word: &[u8]) -> Option<u64>
    requires { high < 10000000000 }
    ensures value { result ≡ number_between low high word.now }
    ensures least { IfSome result (λ n. low ≤ n) }
    ensures most { IfSome result (λ n. n ≤ high) }
{
    let number = decimal(high, word)?;
    if low <= number { Some(number) } else { None }
}

/// Returns the only word of a text.
fn only_word<'a>(text: &'a [u8]) -> Option<&'a [u8]>
    ensures { option_copied result ≡ only (words text.now) }
{
    let (word, rest) = first_word(text)?;
    if has_word(rest) { None } else { Some(word) }
}

/// Reads a number from `low` to `high`, the only word of a text.
#[tactic(auto, unfolding(crate::specs::Support::Operands::number_alone))]
fn only_number(low: u64, high: u64, text: &[u8]) -> Option<u64>
    requires { high < 10000000000 }
    ensures value { result ≡ number_alone low high (words text.now) }
    ensures least { IfSome result (λ n. low ≤ n) }
    ensures most { IfSome result (λ n. n ≤ high) }
{
    number_between(low, high, only_word(text)?)
}

/// Reads an address, the only word of a text.
#[tactic(auto, unfolding(crate::specs::Support::Operands::address_alone))]
fn only_address<S: SymbolLookup>(text: &[u8], symbols: &S) -> Option<u32>
    ensures { result ≡ address_alone (S.symbols symbols.now) (words text.now) }
{
    address(only_word(text)?, symbols)
}

/// Reads the words following `s`: a number of steps, or nothing for one step.
#[tactic(auto, unfolding(crate::specs::Support::Operands::number_alone))]
fn read_step<'a>(text: &[u8]) -> Option<Command<'a>>
    ensures value { (symbols : List ℕ → Option ℤ) → result ≡ command_by symbols (codes "s") (words text.now) }
    ensures named { IfSome result IsNamed }
{
    if !has_word(text) {
        return Some(Command::Step { count: 1 });
    }
    let count = only_number(0, MOST_STEPS, text)?;
    Some(Command::Step { count })
}

/// Reads the words following `c`: the most steps, or nothing for all that are left.
#[tactic(auto, unfolding(crate::specs::Support::Operands::number_alone))]
fn read_go<'a>(text: &[u8]) -> Option<Command<'a>>
    ensures value { (symbols : List ℕ → Option ℤ) → result ≡ command_by symbols (codes "c") (words text.now) }
    ensures named { IfSome result IsNamed }
{
    if !has_word(text) {
        return Some(Command::Go { count: None });
    }
    let count = only_number(0, MOST_STEPS, text)?;
    Some(Command::Go { count: Some(count) })
}

/// Reads the words following `p`: the name of a control register.
fn read_control_register<'a>(text: &'a [u8]) -> Option<Command<'a>>
    ensures value { (symbols : List ℕ → Option ℤ) → result ≡ command_by symbols (codes "p") (words text.now) }
    ensures named { IfSome result IsNamed }
{
    let name = only_word(text)?;
    let csr = csr_named(name)?;
    let name = Name::new(name);
    Some(Command::ControlRegister { name, csr })
}

/// Reads the words following `m`: an address and a number of bytes.
fn read_memory<'a, S: SymbolLookup>(text: &[u8], symbols: &S) -> Option<Command<'a>>
    ensures value { result ≡ command_by (S.symbols symbols.now) (codes "m") (words text.now) }
    ensures named { IfSome result IsNamed }
{
    let (first, rest) = first_word(text)?;
    let second = only_word(rest)?;
    let addr = address(first, symbols)?;
    let count = number_between(1, 256, second)? as u32;
    Some(Command::Memory { addr, count })
}

/// Reads the number of an edge source, the only word of a text.
fn only_source(text: &[u8]) -> Option<Source>
    ensures { result ≡ number_alone 24 31 (words text.now) }
{
    let number = only_number(24, 31, text)?;
    Source::new(number as u8)
}

/// Returns a command if no word follows its first.
fn without_operands<'a>(command: Command<'a>, text: &[u8]) -> Option<Command<'a>>
    requires { IsNamed command }
    ensures value { result ≡ alone command.entry (words text.now) }
    ensures named { IfSome result IsNamed }
{
    if has_word(text) { None } else { Some(command) }
}

/// Reads a command, given its first word and the text following it.
#[tactic(auto, unfolding(crate::specs::Support::Operands::number_alone, crate::specs::Support::Operands::address_alone))]
fn read_row<'a, S: SymbolLookup>(word: &[u8], rest: &'a [u8], symbols: &S) -> Option<Command<'a>>
    ensures value { result ≡ command_by (S.symbols symbols.now) word.now (words rest.now) }
    ensures named { IfSome result IsNamed }
{
    match word {
        b"s" => read_step(rest),
        b"c" => read_go(rest),
        b"b" => {
            let addr = only_address(rest, symbols)?;
            Some(Command::SetBreak { addr })
        }
        b"d" => {
            let addr = only_address(rest, symbols)?;
            Some(Command::ClearBreak { addr })
        }
        b"r" => without_operands(Command::Registers, rest),
        b"p" => read_control_register(rest),
        b"m" => read_memory(rest, symbols),
        b"i" => {
            let addr = only_address(rest, symbols)?;
            Some(Command::Instruction { addr })
        }
        b"t" => without_operands(Command::Traps, rest),
        b"e" => {
            let source = only_source(rest)?;
            Some(Command::Edges { source })
        }
        b"q" => without_operands(Command::Quit, rest),
        _ => None,
    }
}

/// Reads a command line. Symbols stand for their values. None if the line isn't a command.
#[tactic(auto, unfolding(crate::specs::Commands::command_of))]
pub fn read_command<'a, S: SymbolLookup>(line: &'a [u8], symbols: &S) -> Option<Command<'a>>
    ensures value { result ≡ command_of line.now (S.symbols symbols.now) }
    ensures named { IfSome result IsNamed }
{
    if line.len() > LINE_LIMIT {
        return None;
    }
    let Some((first, rest)) = first_word(line) else {
        return Some(Command::Nothing);
    };
    if begins_comment(first) {
        return Some(Command::Nothing);
    }
    read_row(first, rest, symbols)
}
