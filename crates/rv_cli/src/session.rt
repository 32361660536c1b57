//! The session of a run: its commands, or all its steps.
ghost use Rattle.std.specs.Prelude.{IfOk};
ghost use Rattle.rv_base.specs.Lines.{lines};
ghost use Rattle.rv_cli.specs.Output.{Does, Obeys};

use rv_base::{NoMemory, cut_lines};
use rv_cache::Decoded;
use rv_io::Texts;
use rv_monitor::{Next, Session};
use rv_ram::ByteMemory;
use std::alloc::Global;

/// Executes the command lines in order, up to one that quits, and returns their answers.
#[tactic(auto, using(crate::proofs::Obeyed::none_done, crate::proofs::Obeyed::all_done))]
fn obey<M: ByteMemory, C: Decoded>(
    alloc: Global,
    session: &mut Session<M, C>,
    commands: &[u8],
) -> Result<Vec<u8>, NoMemory>
    ensures { IfOk result (λ text. Obeys (lines commands.now) session.old session.new text.items) }
{
    let mut text = Vec::new(alloc);
    for line in cut_lines(commands) {
        if let Next::Quit = session.command(line, &mut text)? {
            return Ok(text);
        }
    }
    Ok(text)
}

/// Executes the commands and returns their answers, or takes all steps if there are no commands.
pub(crate) fn run_session<M: ByteMemory, C: Decoded>(
    alloc: Global,
    session: &mut Session<M, C>,
    texts: &Texts,
) -> Result<Vec<u8>, NoMemory>
    ensures { IfOk result (λ text. Does texts.now.commands session.old session.new text.items) }
{
    match texts.commands() {
        Some(commands) => obey(alloc, session, commands),
        None => {
            // All steps that the session has left, past any breakpoint.
            session.step(session.limit())?;
            Ok(Vec::new(alloc))
        }
    }
}
