//! Addresses and values.
ghost use Rattle.std.specs.Prelude.{◌≡◌, ◌≤◌, ◌+◌, ◌%◌, ◌^◌, IfSome, drop, length, option_and_then, slice_index};
ghost use Rattle.std.specs.List.{before_first, position_or_len};
ghost use Rattle.std.specs.Option.{option_map};
ghost use Rattle.rv_base.specs.Tables.{lookup};
ghost use Rattle.rv_commands.specs.Addresses.{address_of};
ghost use Rattle.rv_asm.specs.Seen.{seen};
ghost use Rattle.rv_isa.specs.Names.{register_names};
ghost use Rattle.rv_program.specs.Program.{value_of};
ghost use Rattle.rv_operands.specs.Operands.{added, address, base_value, break_place, line_with_bytes, sum, word_value};
ghost use Rattle.rv_operands.specs.Support.Words.{base_or_zero, is_sign, next_address};

use crate::word::{line_number, number};
use rv_asm::Listing;
use rv_base::low_word;
use rv_board::BootedBoard;
use rv_commands::hexadecimal;
use rv_isa::reg_named;

/// What operands speak of: the lines and the symbols of a source, and a board.
#[derive(Clone, Copy)]
pub struct Scope<'a> {
    /// The lines of the source.
    pub listing: Listing<'a>,
    /// The board.
    pub board: &'a BootedBoard,
}

/// Returns whether a byte is the sign of a sum.
fn is_sign(byte: u8) -> bool
    ensures { result ≡ is_sign byte }
{
    byte == b'+' || byte == b'-'
}

/// Returns what is added: a number after its sign, or nothing.
#[tactic(auto, unfolding(crate::specs::Operands::added))]
fn added(text: &[u8]) -> Option<u64>
    ensures value { result ≡ added text.now }
    ensures below { IfSome result (λ n. n ≤ 2 ^ 32) }
{
    let [sign, digits @ ..] = text else {
        return Some(0);
    };
    let distance = u64::from(number(digits)?);
    if *sign == b'-' {
        return Some((1 << 32) - distance);
    }
    Some(distance)
}

/// Returns the place of the sign of a sum, or the length of a word that has none.
fn sign_place(word: &[u8]) -> usize
    ensures value { result ≡ position_or_len is_sign word.now }
    ensures within { result ≤ length word.now }
{
    match word {
        [c, rest @ ..] if !is_sign(*c) => 1 + sign_place(rest),
        _ => 0,
    }
}

/// Returns the first line from this one on that has bytes.
#[tactic(auto, using(crate::proofs::Lines::line_next, crate::proofs::Lines::no_line, std::proofs::lemmas::Bool::Decides::nat_tests))]
pub fn line_with_bytes(listing: Listing, from: usize) -> Option<usize>
    ensures { result ≡ line_with_bytes (seen listing.entry) from }
{
    for line in from..=listing.len() {
        if !listing.bytes(line).is_empty() {
            return Some(line);
        }
    }
    None
}

/// Returns a sum, modulo 2^32, if both of its parts have a value.
fn total(base: Option<u32>, added: Option<u64>) -> Option<u32>
    requires { IfSome added (λ n. n ≤ 2 ^ 32) }
    ensures { result ≡ option_and_then (λ a. option_map (λ n. (a + n) % 2 ^ 32) added) base }
{
    let (base, added) = (base?, added?);
    Some(low_word(u64::from(base) + added))
}

/// A word that may be a sum: what stands before its sign, and what is added.
#[derive(Clone, Copy)]
struct Sum<'a> {
    base: &'a [u8],
    added: Option<u64>,
}

/// Splits a word at its first sign, if it has one.
fn split_sum<'a>(word: &'a [u8]) -> Sum<'a>
    ensures base { result.base.now ≡ before_first is_sign word.now }
    ensures added { result.added ≡ added (drop (position_or_len is_sign word.now) word.now) }
    ensures below { IfSome result.added (λ n. n ≤ 2 ^ 32) }
{
    let (base, rest) = word.split_at(sign_place(word));
    let added = added(rest);
    Sum { base, added }
}

impl<'a> Scope<'a> {
    /// Returns the value of a name, or of `0x` and a number.
    #[tactic(auto, unfolding(rv_commands::specs::Addresses::address_of))]
    fn symbol(&self, word: &[u8]) -> Option<u32>
        ensures { result ≡ address_of (value_of (seen self.now.listing).assembly.symbols) word.now }
    {
        if word.starts_with(b"0x") {
            return hexadecimal(word.split_at(2).1);
        }
        let program = self.listing.program;
        let value = program.symbol(word)?;
        Some(low_word(value.cast_unsigned()))
    }

    /// Returns the value of a register.
    fn register(&self, word: &[u8]) -> Option<u32>
        ensures { result ≡ option_map (λ r. slice_index self.now.board.now.machine.registers r) (lookup word.now register_names) }
    {
        let register = reg_named(word)?;
        let board = self.board;
        Some(board.reg(register))
    }

    /// Returns the value of a name, a number after `0x`, `pc` or a register.
    #[tactic(auto, using(crate::proofs::Lines::base_told))]
    fn base(&self, word: &[u8]) -> Option<u32>
        ensures { result ≡ base_value (seen self.now.listing) self.now.board.now word.now }
    {
        if let Some(value) = self.symbol(word) {
            return Some(value);
        }
        if b"pc".as_slice() == word {
            let board = self.board;
            return Some(board.pc());
        }
        self.register(word)
    }

    /// Returns the value of a base with what is added.
    #[tactic(auto, unfolding(crate::specs::Operands::sum))]
    pub(crate) fn sum(&self, word: &[u8]) -> Option<u32>
        ensures { result ≡ sum (base_value (seen self.now.listing) self.now.board.now) word.now }
    {
        let Sum { base, added } = split_sum(word);
        total(self.base(base), added)
    }

    /// Returns the address that a word stands for: that of a line, or a base with what is added.
    #[tactic(auto, unfolding(crate::specs::Operands::address))]
    pub fn address(&self, word: &[u8]) -> Option<u32>
        ensures { result ≡ address (seen self.now.listing) self.now.board.now word.now }
    {
        match line_number(word) {
            Some(line) => {
                let listing = self.listing;
                listing.address(line as usize)
            }
            None => self.sum(word),
        }
    }

    /// Returns the value of a base, which is 0 where there is only a sign.
    fn base_or_zero(&self, word: &[u8]) -> Option<u32>
        ensures { result ≡ base_or_zero (seen self.now.listing) self.now.board.now word.now }
    {
        if word.is_empty() {
            return Some(0);
        }
        self.base(word)
    }

    /// Returns the value that a word stands for: a number, or a base with what is added.
    #[tactic(auto, unfolding(crate::specs::Operands::word_value, crate::specs::Operands::sum))]
    pub fn value(&self, word: &[u8]) -> Option<u32>
        ensures { result ≡ word_value (seen self.now.listing) self.now.board.now word.now }
    {
        if let Some(value) = number(word) {
            return Some(value);
        }
        let Sum { base, added } = split_sum(word);
        total(self.base_or_zero(base), added)
    }

    /// Returns the address of the first line from this one on that has bytes.
    fn next_address(&self, line: usize) -> Option<u32>
        ensures { result ≡ next_address (seen self.now.listing) line }
    {
        let listing = self.listing;
        listing.address(line_with_bytes(listing, line)?)
    }

    /// Returns the address of a breakpoint: what a word stands for, where a line without bytes stands for the next one
    /// that has some.
    #[tactic(auto, unfolding(crate::specs::Operands::break_place))]
    pub fn break_place(&self, word: &[u8]) -> Option<u32>
        ensures { result ≡ break_place (seen self.now.listing) self.now.board.now word.now }
    {
        match line_number(word) {
            Some(line) => self.next_address(line as usize),
            None => self.sum(word),
        }
    }
}
