//! The talk with a lab: reads commands and writes their answers.
use crate::displays::Displays;
use crate::reload::SourceFile;
use crate::save::saved;
use crate::stop::StopFile;
use rv_answers::{Command, Shown, command_named};
use rv_base::{NoMemory, first_word};
use rv_lab::{Lab, Next, Printer, Reply};
use std::io::{BufRead, IsTerminal, StdinLock, Write};

/// How many steps of a long run lie between two lines of progress.
const PROGRESS: u64 = 10_000_000;

/// The error of a talk that ended early.
#[derive(Clone, Copy)]
pub enum TalkFault {
    /// The commands can't be read.
    Read,
    /// The answers can't be written.
    Write,
}

/// What a talk keeps beside its lab.
#[derive(Drop)]
struct Kept<'a> {
    stop: StopFile,
    file: SourceFile<'a>,
    displays: Displays,
}

/// What a line asks the program for, beside what the lab answers to it.
#[derive(Clone, Copy)]
enum Own<'a> {
    /// To show an operand from now on.
    Display(&'a [u8]),
    /// To show one no more, or none where it is empty.
    Undisplay(&'a [u8]),
    /// To read the source again.
    Reload,
    /// Nothing.
    Nothing,
}

/// Returns the first word of a text, or nothing.
fn word_in(text: &[u8]) -> &[u8] {
    match first_word(text) {
        Some((word, _)) => word,
        None => b"",
    }
}

/// Returns what a line asks the program for.
fn own_of(line: &[u8]) -> Own<'_> {
    let Some((word, operands)) = first_word(line) else {
        return Own::Nothing;
    };
    match command_named(word) {
        Some(Command::Display) => Own::Display(word_in(operands)),
        Some(Command::Undisplay) => Own::Undisplay(word_in(operands)),
        Some(Command::Reload) => Own::Reload,
        _ => Own::Nothing,
    }
}

/// Writes bytes to the standard output.
pub fn print(rt: &HostRuntime, bytes: &[u8]) -> Result<(), TalkFault> {
    rt.stdout().write_all(bytes).ok().ok_or(TalkFault::Write)
}

/// Writes an answer to the standard output, and makes it empty.
pub fn print_answer(rt: &HostRuntime, answer: &mut Printer) -> Result<(), TalkFault> {
    let printed = print(rt, answer.bytes());
    answer.clear();
    printed
}

/// Reads a line without its end, and returns whether there was one.
pub fn read_line(reader: &mut StdinLock<'_>, line: &mut Vec<u8>) -> Result<bool, TalkFault> {
    line.clear();
    let Ok(count) = reader.read_until(b'\n', line) else {
        return Err(TalkFault::Read);
    };
    if line.ends_with(b"\n") {
        let _ = line.pop();
    }
    if line.ends_with(b"\r") {
        let _ = line.pop();
    }
    Ok(count > 0)
}

/// Tells the progress of a long run on the standard error, which had taken `before` steps when it was last
/// asked for.
pub fn tell_progress(rt: &HostRuntime, lab: &Lab, before: u64) {
    if lab.steps() / PROGRESS > before / PROGRESS {
        let mut line = Printer::new(rt.alloc());
        lab.append_progress(&mut line);
        let _ = rt.stderr().write_all(line.bytes());
    }
}

/// Writes that memory ran out. Another command follows.
fn tell_no_memory(rt: &HostRuntime) -> Result<Next, TalkFault> {
    print(rt, b"out of memory\n")?;
    Ok(Next::More)
}

/// Writes a reply, saves what was done where it asks for that, and returns what follows.
fn finish(
    rt: &HostRuntime,
    lab: &Lab,
    reply: Result<Reply, NoMemory>,
    text: &mut Printer,
) -> Result<Next, TalkFault> {
    let Ok(reply) = reply else {
        return tell_no_memory(rt);
    };
    let reply = saved(rt, reply);
    lab.append_reply(&reply, text);
    let is_cut = text.is_cut();
    print_answer(rt, text)?;
    if is_cut {
        return tell_no_memory(rt);
    }
    Ok(reply.next)
}

/// Tells where a run was stopped by hand. Another command follows.
fn tell_interrupted(
    rt: &HostRuntime,
    lab: &mut Lab,
    text: &mut Printer,
) -> Result<Next, TalkFault> {
    print(rt, b"interrupted; c goes on\n")?;
    let reply = lab.answer(b"w");
    finish(rt, lab, reply, text)
}

/// Executes a command of the lab, and writes its answers as they come. Returns what follows once no run goes on, or
/// once it was stopped by hand.
fn run_command(
    rt: &HostRuntime,
    lab: &mut Lab,
    line: &[u8],
    stop: &StopFile,
    text: &mut Printer,
) -> Result<Next, TalkFault> {
    // What was asked before this command stops nothing.
    let _ = stop.take(rt);
    let reply = lab.answer(line);
    let mut next = finish(rt, lab, reply, text)?;
    for _ in 0..u64::MAX {
        if !matches!(next, Next::Running) {
            break;
        }
        if stop.take(rt) {
            return tell_interrupted(rt, lab, text);
        }
        let before = lab.steps();
        let reply = lab.go_on();
        next = finish(rt, lab, reply, text)?;
        tell_progress(rt, lab, before);
    }
    Ok(next)
}

/// Writes the values of all that is shown after each command that moved the board.
fn show(
    rt: &HostRuntime,
    lab: &Lab,
    displays: &Displays,
    text: &mut Printer,
) -> Result<(), TalkFault> {
    if displays.append(lab, text).is_err() {
        text.cut();
    }
    print_answer(rt, text)
}

/// Does what a line asks the program for.
fn do_own(
    rt: &HostRuntime,
    lab: &mut Lab,
    own: Own<'_>,
    kept: &mut Kept<'_>,
    text: &mut Printer,
) -> Result<(), TalkFault> {
    match own {
        Own::Display(operand) => {
            if kept.displays.add(lab, operand).is_err() {
                text.say("out of memory\n");
            }
        }
        Own::Undisplay(operand) => {
            if !kept.displays.remove(operand) {
                text.say("undisplay: nothing of it is shown\n");
            }
        }
        Own::Reload => {
            kept.file.reload(rt, lab, text);
            return show(rt, lab, &kept.displays, text);
        }
        Own::Nothing => {}
    }
    print_answer(rt, text)
}

/// Executes a command, and shows what is to be shown where it moved the board. Returns what follows.
fn execute(
    rt: &HostRuntime,
    lab: &mut Lab,
    line: &[u8],
    kept: &mut Kept<'_>,
    text: &mut Printer,
) -> Result<Next, TalkFault> {
    let before = lab.steps();
    let next = run_command(rt, lab, line, &kept.stop, text)?;
    if lab.steps() != before {
        show(rt, lab, &kept.displays, text)?;
    }
    do_own(rt, lab, own_of(line), kept, text)?;
    Ok(next)
}

/// Writes a command that was read from no terminal, so that a transcript shows it. No byte of it drives a terminal.
fn echo(rt: &HostRuntime, line: &[u8], text: &mut Printer) -> Result<(), TalkFault> {
    if rt.stdin().is_terminal() {
        return Ok(());
    }
    writeln!(text, "{}", Shown(line));
    print_answer(rt, text)
}

/// Tells that the source was written since it was read, once for each time.
fn tell_newer(rt: &HostRuntime, file: &mut SourceFile<'_>) -> Result<(), TalkFault> {
    if file.is_newer(rt) {
        return print(rt, b"the source has changed: `reload` reads it again\n");
    }
    Ok(())
}

/// Reads a command and writes its answer. Returns whether another follows.
fn talk_once(
    rt: &HostRuntime,
    lab: &mut Lab,
    reader: &mut StdinLock<'_>,
    line: &mut Vec<u8>,
    kept: &mut Kept<'_>,
    answer: &mut Printer,
) -> Result<bool, TalkFault> {
    tell_newer(rt, &mut kept.file)?;
    print(rt, b"> ")?;
    if !read_line(reader, line)? {
        print(rt, b"\n")?;
        return Ok(false);
    }
    echo(rt, line, answer)?;
    let next = execute(rt, lab, line, kept, answer)?;
    Ok(!matches!(next, Next::Quit))
}

/// Reads commands from the standard input up to one that ends the talk, or to the end, and writes their
/// answers. `file` is that of the lab's source.
pub fn talk(
    rt: &HostRuntime,
    lab: &mut Lab,
    file: SourceFile<'_>,
    answer: &mut Printer,
) -> Result<(), TalkFault> {
    let mut reader = rt.reader();
    let mut line = Vec::new(rt.alloc());
    let mut kept = Kept {
        stop: StopFile::from_env(rt),
        file,
        displays: Displays::new(rt.alloc()),
    };
    let mut goes_on = Ok(true);
    for _ in 0..u64::MAX {
        match goes_on {
            Ok(true) => goes_on = talk_once(rt, lab, &mut reader, &mut line, &mut kept, answer),
            _ => break,
        }
    }
    goes_on?;
    Ok(())
}
