//! What the commands that only look answer, as values.
ghost use Rattle.std.specs.Prelude.{◌≡◌, ◌≤◌, ◌+◌, ◌++◌, drop, map, option_and_then, IfOk, OnOk};
ghost use Rattle.std.specs.List.{range_with_len};
ghost use Rattle.rv_base.specs.Tables.{lookup};
ghost use Rattle.rv_base.specs.Words.{words};
ghost use Rattle.rv_isa.specs.Names.{register_names};
ghost use Rattle.rv_monitor.specs.Views.{byte_at_offset};
ghost use Rattle.rv_answers.specs.declared.command.Command.TheVariants as command;
ghost use Rattle.rv_operands.specs.Operands.{only_of};
ghost use Rattle.rv_backtrace.specs.Backtrace.{backtrace};
ghost use Rattle.rv_lab.specs.Answers as spec;
ghost use Rattle.rv_lab.specs.Answers.{breakpoints, cells_of, instruction_answer, look_answer, memory_answer, refused, register_file, rows_answer, standing, trap_runs};
ghost use Rattle.rv_lab.specs.Lines.{row_of};
ghost use Rattle.rv_lab.specs.State.{board, listing};
ghost use Rattle.rv_lab.specs.Support.Rows.{char_at, word_cell};

use crate::control::{MIE, MIP, MSTATUS, csr_word, name_in};
use crate::devices::{edge_source, interrupts_of};
use crate::lab::Lab;
use crate::memory::{byte_at, char_at, text_length};
use crate::operands::count_or;
use crate::places::{distance_at, line_at};
use crate::run::USUAL_STEPS;
use crate::source::{Excerpt, line_count};
use rv_answers::{
    Answer, Backtrace, Cells, Command, ControlValue, Devices, Dump, Edges, Extent, Format, Many,
    Place, Refusal, RegisterFile, RegisterValue, Row, Standing, Trap, Why, bits_of, clock_of,
    port_of, push, read_extent, regions_of, sources_of, threshold,
};
use rv_backtrace::backtrace;
use rv_base::{NoMemory, first_word, has_word, low_word};
use rv_board::{BootedBoard, TrapRecord};
use rv_convention::{check, profile, registers_of};
use rv_isa::{Reg, csr_named, reg_named};
use rv_monitor::word_at;
use rv_operands::only_word;
use rv_why::comes_again;
use std::alloc::Global;

/// The most steps of `check` and `profile`.
const MOST_COPIED: u64 = 20_000_000;

/// Returns the register that some operands name.
fn register_of(operands: &[u8]) -> Option<Reg>
    ensures { result ≡ option_and_then (λ name. lookup name register_names) (only_of (words operands.now)) }
{
    reg_named(only_word(operands)?)
}

/// Returns bytes from an address on.
#[tactic(auto, using(rv_answers::proofs::Sources::no_items, rv_answers::proofs::Sources::next_item, rv_answers::proofs::Sources::all_items))]
fn bytes_of(
    alloc: Global,
    board: &BootedBoard,
    address: u32,
    count: u32,
) -> Result<Many<Option<u8>>, NoMemory>
    ensures { IfOk result (λ c. c ≡ map (byte_at_offset board.now address) (range_with_len 0 count)) }
{
    let mut cells = Vec::new(alloc);
    for offset in 0..count {
        push(&mut cells, byte_at(board, address, offset))?;
    }
    Ok(Many::of(cells))
}

/// Returns words from an address on.
#[tactic(auto, using(rv_answers::proofs::Sources::no_items, rv_answers::proofs::Sources::next_item, rv_answers::proofs::Sources::all_items))]
fn words_of(
    alloc: Global,
    board: &BootedBoard,
    address: u32,
    count: u32,
) -> Result<Many<Option<u32>>, NoMemory>
    requires { count ≤ 4096 }
    ensures { IfOk result (λ c. c ≡ map (word_cell board.now address) (range_with_len 0 count)) }
{
    let mut cells = Vec::new(alloc);
    for index in 0..count {
        push(&mut cells, word_at(board, address.wrapping_add(4 * index)))?;
    }
    Ok(Many::of(cells))
}

/// Returns the bytes from an address on, a zero where there is no memory.
#[tactic(auto, using(rv_answers::proofs::Sources::no_items, rv_answers::proofs::Sources::next_item, rv_answers::proofs::Sources::all_items))]
fn text_of(
    alloc: Global,
    board: &BootedBoard,
    address: u32,
    count: u32,
) -> Result<Many<u8>, NoMemory>
    ensures { IfOk result (λ c. c ≡ map (char_at board.now address) (range_with_len 0 count)) }
{
    let mut text = Vec::new(alloc);
    for offset in 0..count {
        push(&mut text, char_at(board, address, offset))?;
    }
    Ok(Many::of(text))
}

/// Returns what memory holds from an address on.
#[tactic(auto, unfolding(crate::specs::Answers::cells_of, crate::specs::Support::Rows::text_length))]
fn cells_of(
    alloc: Global,
    board: &BootedBoard,
    address: u32,
    extent: Extent,
) -> Result<Cells, NoMemory>
    requires { extent.count ≤ 4096 }
    ensures { IfOk result (λ c. c ≡ cells_of board.now address extent.count extent.format) }
{
    let count = low_word(extent.count);
    match extent.format {
        Format::Bytes => Ok(Cells::Bytes(bytes_of(alloc, board, address, count)?)),
        Format::Words => Ok(Cells::Words(words_of(alloc, board, address, count)?)),
        Format::Text => {
            let length = text_length(board, address, count);
            Ok(Cells::Text(text_of(alloc, board, address, length)?))
        }
    }
}

/// Returns a control register as machine mode reads it, and what its bits say.
#[tactic(auto, unfolding(crate::specs::Answers::control_value))]
fn control_value(
    alloc: Global,
    board: &BootedBoard,
    name: &[u8],
    csr: u16,
) -> Result<ControlValue, NoMemory>
    ensures { IfOk result (λ v. v ≡ spec.control_value board.now name.now csr) }
{
    let name = Many::of(Vec::from_slice(alloc, name)?);
    let value = board.csr(csr);
    let bits = match value {
        Some(word) => bits_of(board.trap_count(), csr, word),
        None => None,
    };
    Ok(ControlValue {
        name,
        csr,
        value,
        bits,
    })
}

impl Lab {
    /// Returns an address with what is there.
    #[tactic(auto, unfolding(crate::specs::Answers::place_of))]
    pub(crate) fn place_of(&self, address: u32) -> Place
        ensures { result ≡ spec.place_of self.now address }
    {
        Place {
            address,
            distance: distance_at(self.listing(), address),
            line: line_at(self.listing(), address),
            word: word_at(self.board(), address),
        }
    }

    /// Answers that operands have no meaning.
    pub(crate) fn refused(
        &self,
        command: Command,
        text: &[u8],
        why: Why,
    ) -> Result<Answer, NoMemory>
        ensures { IfOk result (λ a. a ≡ refused command text.now why) }
    {
        let text = Many::of(Vec::from_slice(self.alloc, text)?);
        Ok(Answer::Refused(Refusal { command, text, why }))
    }

    /// Returns where the board stands.
    pub(crate) fn standing(&self) -> Standing
        ensures { result ≡ standing self.now }
    {
        let board = self.board();
        Standing {
            steps: self.steps(),
            mode: board.mode(),
            halted: board.halted(),
            here: self.place_of(board.pc()),
        }
    }

    /// Returns all registers.
    fn register_file(&self) -> RegisterFile
        ensures { result ≡ register_file self.now }
    {
        let board = self.board();
        RegisterFile {
            before: self.last.registers,
            now: registers_of(board),
            mode: board.mode(),
            here: self.place_of(board.pc()),
        }
    }

    /// Answers `r`.
    #[tactic(auto, unfolding(crate::specs::Answers::look_answer))]
    fn registers_answer(&self, operands: &[u8]) -> Result<Answer, NoMemory>
        ensures { IfOk result (λ a. a ≡ look_answer command.Registers operands.now self.now) }
    {
        if !has_word(operands) {
            return Ok(Answer::Registers(self.register_file()));
        }
        match register_of(operands) {
            Some(register) => {
                let value = self.board().reg(register);
                Ok(Answer::Register(RegisterValue { register, value }))
            }
            None => self.refused(Command::Registers, operands, Why::NoRegister),
        }
    }

    /// Answers `p`.
    #[tactic(auto, unfolding(crate::specs::Answers::look_answer))]
    fn control_answer(&self, operands: &[u8]) -> Result<Answer, NoMemory>
        ensures { IfOk result (λ a. a ≡ look_answer command.ControlRegister operands.now self.now) }
    {
        let name = name_in(operands);
        match csr_named(name) {
            Some(csr) => {
                let value = control_value(self.alloc, self.board(), name, csr)?;
                Ok(Answer::ControlRegister(value))
            }
            None => self.refused(Command::ControlRegister, name, Why::NoControlRegister),
        }
    }

    /// Answers `m`.
    #[tactic(auto, unfolding(crate::specs::Answers::memory_answer))]
    fn memory_answer(&self, operands: &[u8]) -> Result<Answer, NoMemory>
        ensures { IfOk result (λ a. a ≡ memory_answer self.now (words operands.now)) }
    {
        let Some((word, rest)) = first_word(operands) else {
            return self.refused(Command::Memory, b"", Why::Missing);
        };
        let Some(address) = self.scope().address(word) else {
            return self.refused(Command::Memory, word, Why::NoAddress);
        };
        let Some(extent) = read_extent(rest) else {
            return self.refused(Command::Memory, b"", Why::NoExtent);
        };
        let cells = cells_of(self.alloc, self.board(), address, extent)?;
        Ok(Answer::Memory(Dump { address, cells }))
    }

    /// Answers `i`.
    #[tactic(auto, unfolding(crate::specs::Answers::instruction_answer))]
    fn instruction_answer(&self, operands: &[u8]) -> Result<Answer, NoMemory>
        ensures { IfOk result (λ a. a ≡ instruction_answer self.now (words operands.now)) }
    {
        let Some((word, _)) = first_word(operands) else {
            return Ok(Answer::Instruction(self.place_of(self.board().pc())));
        };
        match self.scope().address(word) {
            Some(address) => Ok(Answer::Instruction(self.place_of(address))),
            None => self.refused(Command::Instruction, word, Why::NoAddress),
        }
    }

    /// Returns the rows of `count` lines from one on.
    #[tactic(auto, using(rv_answers::proofs::Sources::no_items, rv_answers::proofs::Sources::next_item, rv_answers::proofs::Sources::all_items))]
    fn rows_from(&self, first: usize, count: usize, last: usize) -> Result<Many<Row>, NoMemory>
        requires { first + count ≤ last + 1 }
        ensures { IfOk result (λ r. r ≡ map (row_of self.now) (range_with_len first count)) }
    {
        let mut rows = Vec::new(self.alloc);
        for passed in 0..count {
            push(&mut rows, self.row(first + passed))?;
        }
        Ok(Many::of(rows))
    }

    /// Returns the rows of an excerpt, of those lines that the source has. `follows` is whether they follow those that
    /// were listed last.
    #[tactic(auto, unfolding(crate::specs::Answers::rows_answer))]
    pub(crate) fn rows_answer(&self, excerpt: Excerpt, follows: bool) -> Result<Answer, NoMemory>
        ensures { IfOk result (λ a. a ≡ rows_answer excerpt follows self.now) }
    {
        let last = line_count(self.listing());
        if last <= excerpt.after {
            if follows {
                return Ok(Answer::WasLast);
            }
            return Ok(Answer::BehindLast(last));
        }
        let count = excerpt.count.min(last - excerpt.after);
        Ok(Answer::List(self.rows_from(excerpt.after + 1, count, last)?))
    }

    /// Returns the places of the breakpoints.
    #[tactic(auto, using(rv_answers::proofs::Regions::none_yet))]
    pub(crate) fn breakpoints(&self) -> Result<Many<Place>, NoMemory>
        ensures { IfOk result (λ b. b ≡ breakpoints self.now) }
    {
        let mut places = Vec::new(self.alloc);
        let mut from = 0;
        loop {
            let Some(address) = self.recording.next_break(from) else {
                return Ok(Many::of(places));
            };
            push(&mut places, self.place_of(address))?;
            if address == u32::MAX {
                return Ok(Many::of(places));
            }
            from = address + 1;
        }
    }

    /// Appends the traps from an index on, after `times` that are the same as the first.
    #[tactic(auto, using(crate::proofs::Values::runs_end, crate::proofs::Values::runs_none, crate::proofs::Values::runs_again, crate::proofs::Values::runs_other))]
    fn push_traps(&self, index: usize, times: u64, traps: &mut Vec<Trap>) -> Result<(), NoMemory>
        requires { times ≤ index }
        ensures { OnOk result (traps.new.items ≡ traps.old.items ++ trap_runs self.now times (drop index (board self.now).traps)) }
    {
        if index >= self.board().trap_count() {
            return Ok(());
        }
        let Some(trap) = self.board().trap(index) else {
            return Ok(());
        };
        if comes_again(trap, self.board().trap(index + 1)) {
            return self.push_traps(index + 1, times + 1, traps);
        }
        push(traps, self.trap_of(trap, times + 1))?;
        self.push_traps(index + 1, 0, traps)
    }

    /// Returns a trap that was taken some times in a row.
    pub(crate) fn trap_of(&self, trap: TrapRecord, times: u64) -> Trap
        ensures { result ≡ spec.trap_of self.now trap times }
    {
        Trap {
            cause: trap.cause,
            value: trap.tval,
            place: self.place_of(trap.epc),
            times,
        }
    }

    /// Answers `t`.
    fn traps(&self) -> Result<Many<Trap>, NoMemory>
        ensures { IfOk result (λ t. t ≡ trap_runs self.now 0 (board self.now).traps) }
    {
        let mut traps = Vec::new(self.alloc);
        self.push_traps(0, 0, &mut traps)?;
        Ok(Many::of(traps))
    }

    /// Answers `e`.
    #[tactic(auto, unfolding(crate::specs::Answers::look_answer))]
    fn edges_answer(&self, operands: &[u8]) -> Result<Answer, NoMemory>
        ensures { IfOk result (λ a. a ≡ look_answer command.Edges operands.now self.now) }
    {
        match edge_source(operands) {
            Some(source) => Ok(Answer::Edges(Edges {
                source: u32::from(source.number()),
                pending: self.board().plic().edges(source),
            })),
            None => self.refused(Command::Edges, b"", Why::NoEdgeSource),
        }
    }

    /// Answers `dev`.
    #[tactic(auto, unfolding(crate::specs::Answers::devices_of))]
    fn devices(&self) -> Result<Devices, NoMemory>
        ensures { IfOk result (λ d. d ≡ spec.devices_of (board self.now)) }
    {
        let board = self.board();
        let sources = sources_of(self.alloc, board.plic())?;
        let regions = regions_of(self.alloc, board.pmp())?;
        Ok(Devices {
            clock: clock_of(board.timer()),
            port: port_of(board.serial()),
            interrupts: interrupts_of(board),
            threshold: threshold(board.plic()),
            is_notified: board.plic().external(),
            sources,
            regions,
        })
    }

    /// Answers `bt`.
    fn calls(&self) -> Result<Backtrace, NoMemory>
        ensures { IfOk result (λ b. b ≡ backtrace (listing self.now) self.now.frames (board self.now)) }
    {
        backtrace(self.alloc, self.listing(), &self.frames, self.board())
    }

    /// Answers `display`.
    #[tactic(auto, unfolding(crate::specs::Answers::look_answer))]
    fn display_answer(&self, operands: &[u8]) -> Result<Answer, NoMemory>
        ensures { IfOk result (λ a. a ≡ look_answer command.Display operands.now self.now) }
    {
        let Some(word) = only_word(operands) else {
            return self.refused(Command::Display, b"", Why::NotOne);
        };
        match self.scope().followed(word) {
            Some(watched) => Ok(Answer::Display(self.watch_of(&watched))),
            None => self.refused(Command::Display, word, Why::NoAddress),
        }
    }

    /// Answers `check`.
    #[tactic(auto, unfolding(crate::specs::Answers::look_answer))]
    fn check_answer(&self, operands: &[u8]) -> Result<Answer, NoMemory>
        ensures { IfOk result (λ a. a ≡ look_answer command.Check operands.now self.now) }
    {
        match count_or(operands, USUAL_STEPS, MOST_COPIED) {
            Some(most) => Ok(Answer::Checked(check(self.alloc, &self.recording, most)?)),
            None => self.refused(Command::Check, operands, Why::NoSteps),
        }
    }

    /// Answers `profile`.
    #[tactic(auto, unfolding(crate::specs::Answers::look_answer))]
    fn profile_answer(&self, operands: &[u8]) -> Result<Answer, NoMemory>
        ensures { IfOk result (λ a. a ≡ look_answer command.Profile operands.now self.now) }
    {
        match count_or(operands, USUAL_STEPS, MOST_COPIED) {
            Some(most) => {
                let told = profile(self.alloc, &self.recording, self.listing(), most)?;
                Ok(Answer::Profiled(told))
            }
            None => self.refused(Command::Profile, operands, Why::NoSteps),
        }
    }

    /// Returns what a command answers that only looks.
    #[tactic(auto, unfolding(crate::specs::Answers::look_answer))]
    pub(crate) fn look_answer(&self, command: Command, operands: &[u8]) -> Result<Answer, NoMemory>
        ensures { IfOk result (λ a. a ≡ look_answer command operands.now self.now) }
    {
        match command {
            Command::Where => Ok(Answer::Where(self.standing())),
            Command::Backtrace => Ok(Answer::Backtrace(self.calls()?)),
            Command::Registers => self.registers_answer(operands),
            Command::ControlRegister => self.control_answer(operands),
            Command::Memory => self.memory_answer(operands),
            Command::Instruction => self.instruction_answer(operands),
            Command::Traps => Ok(Answer::Traps(self.traps()?)),
            Command::Edges => self.edges_answer(operands),
            Command::Devices => Ok(Answer::Devices(self.devices()?)),
            Command::Check => self.check_answer(operands),
            Command::Profile => self.profile_answer(operands),
            Command::Display => self.display_answer(operands),
            _ => Ok(Answer::Nothing),
        }
    }
}
