//! Which step was the last that wrote a register or a word, or after which a condition held.
ghost use Rattle.std.specs.Prelude.{◌≡◌, ◌+◌, ◌<◌, ◌≤◌, ◌&&◌, ℕ, false, nat_lt, true, IfOk, IfSome, None, OnOk};
ghost use Rattle.std.specs.Option.{option_map, option_map_or};
ghost use Rattle.rv_isa.specs.Width.{bytes_of};
ghost use Rattle.rv_board.specs.Support.State.{halted_of};
ghost use Rattle.rv_monitor.specs.State.{IsInTime, after};
ghost use Rattle.rv_monitor.specs.Stops.{may_step};
ghost use Rattle.rv_why.specs.Origins as spec;
ghost use Rattle.rv_why.specs.Origins.{is_sought, last_sought, last_write, origin, value_in, write_of};
ghost use Rattle.rv_why.specs.Support.Found.{next_of};
ghost use Rattle.rv_why.specs.declared.writes.Sought.TheVariants as sought;
ghost use Rattle.rv_why.specs.Taken.{board_at, first_state};

use crate::reason::instruction_at;
use crate::trap::at_step;
use rv_answers::{Origin, RegisterValue, Target, Write};
use rv_base::NoMemory;
use rv_board::BootedBoard;
use rv_cache::DecodeCache;
use rv_hart::Outcome;
use rv_isa::{Instr, Kind, Reg, Width};
use rv_monitor::{Session, word_at};
use rv_ram::PagedRam;
use rv_recording::{Condition, Recording, Watched, address_at};

/// What is sought among the steps of a recording.
#[derive(Clone, Copy)]
pub enum Sought {
    /// One that writes what is watched.
    Write(Watched),
    /// One after which a condition holds.
    Met(Condition),
}

/// Returns the number of the register that an instruction writes, or 0 if it writes none.
#[tactic(auto, unfolding(crate::specs::Origins::destination))]
fn destination(instr: Instr) -> u8
    ensures { result ≡ spec.destination instr }
{
    match instr.kind() {
        Kind::Lui { rd, .. } => rd.number(),
        Kind::Auipc { rd, .. } => rd.number(),
        Kind::Jal { rd, .. } => rd.number(),
        Kind::Jalr { rd, .. } => rd.number(),
        Kind::Load { rd, .. } => rd.number(),
        Kind::OpImm { rd, .. } => rd.number(),
        Kind::Shift { rd, .. } => rd.number(),
        Kind::Op { rd, .. } => rd.number(),
        Kind::Csr { rd, .. } => rd.number(),
        Kind::CsrImm { rd, .. } => rd.number(),
        _ => 0,
    }
}

/// Returns the registers that an instruction reads: the first and the second.
#[tactic(auto, unfolding(crate::specs::Origins::sources))]
fn sources(instr: Instr) -> (Option<Reg>, Option<Reg>)
    ensures { result ≡ spec.sources instr }
{
    match instr.kind() {
        Kind::Jalr { base, .. } => (Some(base), None),
        Kind::Load { base, .. } => (Some(base), None),
        Kind::Store { source, base, .. } => (Some(source), Some(base)),
        Kind::OpImm { rs1, .. } => (Some(rs1), None),
        Kind::Shift { rs1, .. } => (Some(rs1), None),
        Kind::Op { rs1, rs2, .. } => (Some(rs1), Some(rs2)),
        Kind::Csr { rs1, .. } => (Some(rs1), None),
        _ => (None, None),
    }
}

/// Returns the address of a load or a store.
#[tactic(auto, unfolding(crate::specs::Origins::accessed))]
fn accessed(board: &BootedBoard, instr: Instr) -> Option<u32>
    ensures { result ≡ spec.accessed board.now instr }
{
    match instr.kind() {
        Kind::Load { base, offset, .. } => Some(address_at(board, base, offset)),
        Kind::Store { base, offset, .. } => Some(address_at(board, base, offset)),
        _ => None,
    }
}

/// Returns whether bytes from an address on have any of the four of a word.
fn overlap(first: u32, width: Width, word: u32) -> bool
    ensures { result ≡ nat_lt first (word + 4) && nat_lt word (first + bytes_of width) }
{
    let (first, word) = (u64::from(first), u64::from(word));
    first < word + 4 && word < first + u64::from(width.bytes())
}

/// Returns whether an instruction that retires writes what is watched.
#[tactic(auto, unfolding(crate::specs::Origins::is_written))]
fn is_written(board: &BootedBoard, watched: Watched, instr: Instr) -> bool
    ensures { result ≡ spec.is_written watched board.now instr }
{
    match watched {
        Watched::Register(register) => {
            register.number() > 0 && destination(instr) == register.number()
        }
        Watched::Word(word) => match instr.kind() {
            Kind::Store {
                width,
                base,
                offset,
                ..
            } => overlap(address_at(board, base, offset), width, word),
            _ => false,
        },
    }
}

/// Returns whether the instruction at pc writes what is watched, if it retires.
fn may_write(board: &BootedBoard, watched: Watched) -> bool
    ensures { result ≡ option_map_or (spec.is_written watched board.now) (spec.instruction board.now) false }
{
    match instruction_at(board, board.pc()) {
        Some(instr) => is_written(board, watched, instr),
        None => false,
    }
}

/// Takes a step, and returns whether it wrote what is watched.
#[tactic(auto, unfolding(crate::specs::Origins::is_sought))]
fn wrote(run: &mut Session<PagedRam, DecodeCache>, watched: Watched) -> Result<bool, NoMemory>
    requires { may_step run.old ≡ true }
    ensures state { OnOk result (run.new ≡ next_of run.old) }
    ensures is { IfOk result (λ b. b ≡ is_sought (sought.Write watched) run.old.timed) }
{
    let may_write = may_write(run.board(), watched);
    match run.take_step()? {
        Some(Outcome::Retired) => Ok(may_write),
        Some(Outcome::Halted) => Ok(may_write),
        Some(Outcome::Trapped { .. }) => Ok(false),
        None => Ok(false),
    }
}

/// Takes a step, and returns whether a condition holds after it.
#[tactic(auto, unfolding(crate::specs::Origins::is_sought))]
fn met(run: &mut Session<PagedRam, DecodeCache>, condition: Condition) -> Result<bool, NoMemory>
    requires { may_step run.old ≡ true }
    ensures state { OnOk result (run.new ≡ next_of run.old) }
    ensures is { IfOk result (λ b. b ≡ is_sought (sought.Met condition) run.old.timed) }
{
    match run.take_step()? {
        Some(outcome) => Ok(condition.holds(outcome, run.board())),
        None => Ok(false),
    }
}

/// Takes a step, and returns whether it is what is sought.
fn take_step(run: &mut Session<PagedRam, DecodeCache>, sought: Sought) -> Result<bool, NoMemory>
    requires { may_step run.old ≡ true }
    ensures state { OnOk result (run.new ≡ next_of run.old) }
    ensures is { IfOk result (λ b. b ≡ is_sought sought run.old.timed) }
{
    match sought {
        Sought::Write(watched) => wrote(run, watched),
        Sought::Met(condition) => met(run, condition),
    }
}

/// Takes `most` steps, and returns how many of them come before the last one that is sought.
fn find_last(
    run: &mut Session<PagedRam, DecodeCache>,
    sought: Sought,
    most: u64,
) -> Result<Option<u64>, NoMemory>
    requires in_time { IsInTime run.old.timed }
    requires running { (i : ℕ) → i < most → halted_of (after run.old.timed i).board ≡ None }
    requires room { run.old.timed.taken + most ≤ run.old.limit }
    ensures last { IfOk result (λ n. n ≡ last_sought sought run.old.timed most) }
    ensures within { IfOk result (λ o. IfSome o (λ n. n < most)) }
{
    let mut found = None;
    for done in 0..most {
        // A copy: for the borrow checker the call moves its argument.
        let asked = sought;
        if take_step(run, asked)? {
            found = Some(done);
        }
    }
    Ok(found)
}

/// Returns how many of the first `steps` steps of a recording come before the last of them that is sought. It looks
/// first at those that follow the newest kept state.
#[tactic(auto, using(crate::proofs::LastSought::last_none))]
fn last_within(recording: &Recording, sought: Sought, steps: u64) -> Result<Option<u64>, NoMemory>
    requires { steps ≤ recording.now.session.timed.taken }
    ensures last { IfOk result (λ n. n ≡ last_sought sought (first_state recording.now) steps) }
    ensures within { IfOk result (λ o. IfSome o (λ n. n < steps)) }
{
    if steps == 0 {
        return Ok(None);
    }
    // It tells that the board is the run of the recorded events.
    let _taken = recording.session().taken();
    let (mut run, before) = recording.replay_near(steps - 1)?;
    // A copy: for the borrow checker the call moves its argument.
    let asked = sought;
    match find_last(&mut run, asked, steps - before)? {
        Some(done) => Ok(Some(before + done)),
        None => last_within(recording, sought, before),
    }
}

/// Returns how many of the first `steps` steps of a recording come before the last of them after which a condition
/// holds.
///
/// # Errors
///
/// `NoMemory` if memory runs out.
pub fn last_met(
    recording: &Recording,
    condition: Condition,
    steps: u64,
) -> Result<Option<u64>, NoMemory>
    requires { steps ≤ recording.now.session.timed.taken }
    ensures { IfOk result (λ n. n ≡ last_sought (sought.Met condition) (first_state recording.now) steps) }
{
    last_within(recording, Sought::Met(condition), steps)
}

/// Returns a register with its value.
fn value_in(board: &BootedBoard, register: Option<Reg>) -> Option<RegisterValue>
    ensures { result ≡ option_map (value_in board.now) register }
{
    let register = register?;
    Some(RegisterValue {
        register,
        value: board.reg(register),
    })
}

/// Returns what is told of a write by the step that follows `before` steps.
#[tactic(auto, unfolding(crate::specs::Origins::write_of))]
fn write_of(board: &BootedBoard, watched: Watched, before: u64) -> Write
    requires { before < 18446744073709551615 }
    ensures { result ≡ write_of watched board.now before }
{
    let address = board.pc();
    let word = word_at(board, address);
    let step = before + 1;
    let before = watched.value(board);
    match instruction_at(board, address) {
        Some(instr) => {
            let (first, second) = sources(instr);
            Write {
                step,
                address,
                word,
                before,
                first: value_in(board, first),
                second: value_in(board, second),
                accessed: accessed(board, instr),
            }
        }
        None => Write {
            step,
            address,
            word,
            before,
            first: None,
            second: None,
            accessed: None,
        },
    }
}

/// Returns what is watched, as an answer names it.
pub fn target_of(watched: Watched) -> Target
    ensures { result ≡ spec.target_of watched }
{
    match watched {
        Watched::Register(register) => Target::Register(register),
        Watched::Word(address) => Target::Word(address),
    }
}

/// Returns what is told of the write by the step that follows `before` steps of a recording.
fn write_at(recording: &Recording, watched: Watched, before: u64) -> Result<Write, NoMemory>
    requires within { before < recording.now.session.timed.taken }
    requires small { before < 18446744073709551615 }
    ensures { IfOk result (λ w. w ≡ write_of watched (board_at (first_state recording.now) before) before) }
{
    let run = at_step(recording, before)?;
    Ok(write_of(run.board(), watched, before))
}

/// Returns the last of the first `steps` steps of a recording that wrote what is watched.
pub(crate) fn last_write(
    recording: &Recording,
    watched: Watched,
    steps: u64,
) -> Result<Option<Write>, NoMemory>
    requires { steps ≤ recording.now.session.timed.taken }
    ensures { IfOk result (λ w. w ≡ last_write watched (first_state recording.now) steps) }
{
    // A copy: for the borrow checker the call moves its argument.
    let asked = watched;
    match last_within(recording, Sought::Write(asked), steps)? {
        Some(before) => Ok(Some(write_at(recording, watched, before)?)),
        None => Ok(None),
    }
}

/// Tells where the value of a register or a word came from, by the first `steps` steps of a recording.
///
/// # Errors
///
/// `NoMemory` if memory runs out.
#[tactic(auto, unfolding(crate::specs::Origins::origin))]
pub fn origin(recording: &Recording, watched: Watched, steps: u64) -> Result<Origin, NoMemory>
    ensures { IfOk result (λ o. o ≡ origin recording.now watched steps) }
{
    let steps = steps.min(recording.session().taken());
    // Copies: for the borrow checker a call moves its argument.
    let (asked, named) = (watched, watched);
    let write = last_write(recording, asked, steps)?;
    let run = at_step(recording, steps)?;
    Ok(Origin {
        target: target_of(named),
        steps,
        value: watched.value(run.board()),
        write,
    })
}
