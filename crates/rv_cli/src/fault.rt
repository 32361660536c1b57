//! How a run ends, the faults for which it has no ending, the line of each, and the exit statuses.
ghost use Rattle.std.specs.Prelude.{◌≡◌, ◌++◌, Err, IfErr, IfOk, Ok, OnErr, OnOk, Some};
ghost use Rattle.rv_monitor.specs.Views as views;
ghost use Rattle.rv_cli.specs.Support.Shown.{IsAppended, input_line_of, source_line_of};
ghost use Rattle.rv_cli.specs.Faults.{fault_row, status_of};
ghost use Rattle.rv_cli.specs.Conversions.{unbooted_fault};
ghost use Rattle.rv_cli.specs.Conversions as spec;

use rv_base::NoMemory;
use rv_board::BootFault;
use rv_io::{OutFailed, ReadFault, TextName};
use rv_monitor::OpenFault;
use rv_program::{AsmFault, FaultKind};
use std::{fmt, io};
use thiserror::Error;

/// How a run ended.
#[derive(Clone, Copy, Debug, PartialEq, Eq)]
pub enum Ending {
    /// The program halted the board with this code.
    Halted(u16),
    /// All steps were taken, and the board has not halted.
    Running,
}

/// The reason why a run has no ending, numbered from 1 to 10 in this order.
///
/// `Display` writes the variant's name; `fault_line` appends the line that is printed.
#[derive(Clone, Copy, Debug, PartialEq, Eq, Error)]
pub enum CliFault {
    /// 1: the source's reader failed, or gave more than 16,777,216 bytes.
    #[error("ReadSource")]
    ReadSource,
    /// 2: the same of the timed list.
    #[error("ReadInput")]
    ReadInput,
    /// 3: the same of the commands.
    #[error("ReadCommands")]
    ReadCommands,
    /// 4: the source is refused, but not for memory.
    #[error("Source")]
    Source(AsmFault),
    /// 5: the timed list is refused; the first refused line, from 1.
    #[error("Input")]
    Input(usize),
    /// 6: the number of pages is out of range.
    #[error("BadPages")]
    BadPages,
    /// 7: the number of slots is out of range, or no power of two.
    #[error("BadSlots")]
    BadSlots,
    /// 8: the image is larger than the memory.
    #[error("ImageTooLarge")]
    ImageTooLarge,
    /// 9: memory ran out.
    #[error("OutOfMemory")]
    OutOfMemory,
    /// 10: the writer failed, or took none of some bytes.
    #[error("Write")]
    Write,
}

/// Memory ran out, wherever it did.
impl From<NoMemory> for CliFault {
    ghost use Rattle.std.specs.Prelude.{◌≡◌};
    ghost use Rattle.rv_cli.specs.declared.fault.CliFault.TheVariants.{OutOfMemory};

    ghost from_gives = { λ _ fault. fault ≡ OutOfMemory };

    fn from(_: NoMemory) -> Self {
        CliFault::OutOfMemory
    }
}

/// Returns the fault of a text that can't be read: its file isn't opened, its reader fails, or it is too long.
fn unreadable(text: TextName) -> CliFault
    ensures { result ≡ spec.unreadable text }
{
    match text {
        TextName::Source => CliFault::ReadSource,
        TextName::Input => CliFault::ReadInput,
        TextName::Commands => CliFault::ReadCommands,
    }
}

/// The fault of texts that were not read.
impl From<ReadFault> for CliFault {
    ghost use Rattle.std.specs.Prelude.{◌≡◌};
    ghost use Rattle.rv_cli.specs.Conversions.{unread_fault};

    ghost from_gives = { λ why fault. fault ≡ unread_fault why };

    fn from(why: ReadFault) -> Self {
        match why {
            ReadFault::Unreadable(text) => unreadable(text),
            ReadFault::OutOfMemory => CliFault::OutOfMemory,
        }
    }
}

/// Returns the fault of a board that isn't booted.
fn unbooted(why: BootFault) -> CliFault
    ensures { result ≡ unbooted_fault why }
{
    match why {
        BootFault::BadPages => CliFault::BadPages,
        BootFault::BadSlots => CliFault::BadSlots,
        BootFault::ImageTooLarge => CliFault::ImageTooLarge,
        BootFault::OutOfMemory => CliFault::OutOfMemory,
    }
}

/// The fault of a source that is not assembled.
impl From<AsmFault> for CliFault {
    ghost use Rattle.std.specs.Prelude.{◌≡◌};
    ghost use Rattle.rv_cli.specs.Conversions.{source_fault};

    ghost from_gives = { λ why fault. fault ≡ source_fault why.kind why };

    fn from(why: AsmFault) -> Self {
        match why.kind {
            FaultKind::OutOfMemory => CliFault::OutOfMemory,
            _ => CliFault::Source(why),
        }
    }
}

/// The fault of a program that opens no session.
impl From<OpenFault> for CliFault {
    ghost use Rattle.std.specs.Prelude.{◌≡◌};
    ghost use Rattle.rv_cli.specs.Conversions.{unopened_fault};

    ghost from_gives = { λ why fault. fault ≡ unopened_fault why };

    fn from(why: OpenFault) -> Self {
        match why {
            OpenFault::Input(line) => CliFault::Input(line),
            OpenFault::Board(why) => unbooted(why),
            OpenFault::OutOfMemory => CliFault::OutOfMemory,
        }
    }
}

/// The fault of a writer.
impl From<OutFailed> for CliFault {
    ghost use Rattle.std.specs.Prelude.{◌≡◌};
    ghost use Rattle.rv_cli.specs.declared.fault.CliFault.TheVariants.{Write};

    ghost from_gives = { λ _ fault. fault ≡ Write };

    fn from(_: OutFailed) -> Self {
        CliFault::Write
    }
}

/// Returns the file of a text, or the fault of the text's reader if the file can't be opened.
pub fn file_or_fault<F: Drop>(text: TextName, file: io::Result<F>) -> Result<F, CliFault>
    ensures ok { IfOk file (λ f. result ≡ Ok f) }
    ensures err { IfErr file (λ _. result ≡ Err (spec.unreadable text)) }
{
    match file {
        Ok(file) => Ok(file),
        Err(_) => Err(unreadable(text)),
    }
}

/// The line of a source's fault, without its line end.
#[derive(Clone, Copy)]
struct SourceLine(AsmFault);

impl fmt::Display for SourceLine {
    ghost output = { λ s. Some (source_line_of s.0) };

    fn fmt<W: fmt::Write>(&self, f: &mut fmt::Formatter<W>) -> fmt::Result {
        let AsmFault { line, kind } = self.0;
        let number = kind.number();
        let name = kind.name();
        write!(f, "source line {line}: E{number} {name}")
    }
}

/// The line of a timed list's fault, without its line end: the number of the refused line.
#[derive(Clone, Copy)]
struct InputLine(usize);

impl fmt::Display for InputLine {
    ghost output = { λ s. Some (input_line_of s.0) };

    fn fmt<W: fmt::Write>(&self, f: &mut fmt::Formatter<W>) -> fmt::Result {
        let number = self.0;
        write!(f, "input line {number}: refused")
    }
}

/// Appends `text` to a line, which is left as it was where memory runs out.
pub(crate) fn append(text: &str, line: &mut Vec<u8>) -> Result<(), NoMemory>
    ensures ok { OnOk result (line.new.items ≡ line.old.items ++ text.now) }
    ensures err { OnErr result (line.new.items ≡ line.old.items) }
{
    line.extend_from_slice(text.as_bytes())?;
    Ok(())
}

/// Appends the text of a value and a line end to a line, which is left as it was where memory runs out.
fn append_line<D: fmt::Display>(shown: &D, line: &mut Vec<u8>) -> Result<(), NoMemory>
    ensures ok { OnOk result (IsAppended (D.output shown.now) line.old.items line.new.items) }
    ensures err { OnErr result (line.new.items ≡ line.old.items) }
{
    let text = format!(in *line.allocator(); "{shown}\n")?;
    append(&text, line)
}

/// Appends the line of a fault, with its line end.
///
/// # Errors
///
/// `NoMemory` if memory runs out. `line` is left as it was.
pub fn fault_line(fault: &CliFault, line: &mut Vec<u8>) -> Result<(), NoMemory>
    ensures ok { OnOk result (line.new.items ≡ line.old.items ++ views.line (fault_row fault.now).0) }
    ensures err { OnErr result (line.new.items ≡ line.old.items) }
{
    match *fault {
        CliFault::ReadSource => append("cannot read source\n", line),
        CliFault::ReadInput => append("cannot read input\n", line),
        CliFault::ReadCommands => append("cannot read commands\n", line),
        CliFault::Source(fault) => append_line(&SourceLine(fault), line),
        CliFault::Input(number) => append_line(&InputLine(number), line),
        CliFault::BadPages => append("bad pages\n", line),
        CliFault::BadSlots => append("bad slots\n", line),
        CliFault::ImageTooLarge => append("image too large\n", line),
        CliFault::OutOfMemory => append("out of memory\n", line),
        CliFault::Write => append("cannot write\n", line),
    }
}

/// Returns the program's exit status:
///
/// - 0 after a halt with code 0, 1 after a halt with another code, and 2 if the board has not halted;
/// - 3 if the source, the timed list, the number of pages or slots, or the image is refused;
/// - 4 if a text can't be read, memory runs out, or the writer fails.
pub fn exit_status(outcome: &Result<Ending, CliFault>) -> u8
    ensures { result ≡ status_of outcome.now }
{
    match outcome {
        Ok(Ending::Halted(0)) => 0,
        Ok(Ending::Halted(_)) => 1,
        Ok(Ending::Running) => 2,
        Err(CliFault::Source(_) | CliFault::Input(_)) => 3,
        Err(CliFault::BadPages | CliFault::BadSlots | CliFault::ImageTooLarge) => 3,
        Err(_) => 4,
    }
}
