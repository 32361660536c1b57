//! The talk with a program: each command line gets a line of JSON (docs/JSON.md).
use crate::save::saved;
use crate::talk::{TalkFault, print, read_line, tell_progress};
use rv_base::NoMemory;
use rv_json::reply_json;
use rv_lab::{Lab, Next, Reply};
use std::io::StdinLock;

/// The line for a command for which memory ran out.
const OUT_OF_MEMORY: &str =
    "{\"answer\":{\"kind\":\"out_of_memory\"},\"next\":\"more\",\"console\":\"\"}";

/// Returns the word for what follows a command whose run isn't left over.
fn word_of(next: Next) -> &'static str {
    match next {
        Next::More | Next::Running => "more",
        Next::Save => "save",
        Next::Quit => "quit",
    }
}

/// Goes on with a run to its end, and returns its reply, with all that the console got.
fn finish_run(rt: &HostRuntime, lab: &mut Lab, first: Reply) -> Result<Reply, NoMemory> {
    let from = first.from;
    let mut last = first;
    for _ in 0..u64::MAX {
        if !matches!(last.next, Next::Running) {
            break;
        }
        let before = lab.steps();
        last = lab.go_on()?;
        tell_progress(rt, lab, before);
    }
    last.from = from;
    Ok(last)
}

/// Executes a command to its end, and returns its reply.
fn whole_reply(rt: &HostRuntime, lab: &mut Lab, line: &[u8]) -> Result<Reply, NoMemory> {
    let first = lab.answer(line)?;
    let reply = finish_run(rt, lab, first)?;
    Ok(saved(rt, reply))
}

/// Executes a command to its end, and returns its line and whether another command follows.
fn execute(rt: &HostRuntime, lab: &mut Lab, line: &[u8]) -> Result<(String, bool), NoMemory> {
    let reply = whole_reply(rt, lab, line)?;
    let console = lab.console_of(&reply);
    let word = word_of(reply.next);
    let text = reply_json(rt.alloc(), lab.listing(), &reply.answer, word, console)?;
    Ok((text, !matches!(reply.next, Next::Quit)))
}

/// Reads a command and writes its line. Returns whether another follows.
fn talk_once(
    rt: &HostRuntime,
    lab: &mut Lab,
    reader: &mut StdinLock<'_>,
    line: &mut Vec<u8>,
) -> Result<bool, TalkFault> {
    if !read_line(reader, line)? {
        return Ok(false);
    }
    let goes_on = match execute(rt, lab, line) {
        Ok((text, goes_on)) => {
            print(rt, text.as_bytes())?;
            goes_on
        }
        Err(NoMemory) => {
            print(rt, OUT_OF_MEMORY.as_bytes())?;
            true
        }
    };
    print(rt, b"\n")?;
    Ok(goes_on)
}

/// Reads commands from the standard input up to one that ends the talk, or to the end, and writes a line for
/// each.
pub fn talk_json(rt: &HostRuntime, lab: &mut Lab) -> Result<(), TalkFault> {
    let mut reader = rt.reader();
    let mut line = Vec::new(rt.alloc());
    for _ in 0..u64::MAX {
        if !talk_once(rt, lab, &mut reader, &mut line)? {
            break;
        }
    }
    Ok(())
}
