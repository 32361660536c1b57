//! What was done, as files for rvboard.
use rv_answers::{Answer, Command, Many, Refusal, Saved, Why};
use rv_lab::Reply;
use std::alloc::AllocError;
use std::{fs, str};

/// Returns the path of a file: a name and an ending.
fn path(rt: &HostRuntime, name: &str, ending: &str) -> Result<String, AllocError> {
    let mut path = String::from_str(rt.alloc(), name)?;
    path.push_str(ending)?;
    Ok(path)
}

/// Writes a file, and returns whether that succeeded.
fn write_file(rt: &HostRuntime, name: &str, ending: &str, text: &Many<u8>) -> bool {
    match path(rt, name, ending) {
        Ok(path) => fs::write(rt, path.as_str(), text.items()).is_ok(),
        Err(AllocError) => false,
    }
}

/// Writes the timed list and the commands under a name, and returns whether that succeeded.
fn write_files(rt: &HostRuntime, name: &Many<u8>, saved: &Saved) -> bool {
    match str::from_utf8(name.items()) {
        Ok(name) => write_file(rt, name, ".input", &saved.list)
            && write_file(rt, name, ".commands", &saved.commands),
        Err(_) => false,
    }
}

/// Writes what was done under the name that an answer has, if it has one. Returns false where that can't be done.
fn is_written(rt: &HostRuntime, answer: &Answer) -> bool {
    match answer {
        Answer::Saved(saved) => match &saved.name {
            Some(name) => write_files(rt, name, saved),
            None => true,
        },
        _ => true,
    }
}

/// Writes what was done where a reply has a name for it. Returns the reply, or one that says that the files can't be
/// written.
pub fn saved(rt: &HostRuntime, reply: Reply) -> Reply {
    if is_written(rt, &reply.answer) {
        return reply;
    }
    let refusal = Refusal {
        command: Command::Save,
        text: Many::of(Vec::new(rt.alloc())),
        why: Why::NotWritten,
    };
    Reply {
        next: reply.next,
        answer: Answer::Refused(refusal),
        from: reply.from,
        to: reply.to,
    }
}
