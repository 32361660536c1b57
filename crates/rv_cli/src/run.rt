//! A run, from its texts to the text that is printed.
ghost use Rattle.std.specs.Prelude.{◌≡◌, ◌≢◌, Err, IfErr, IfOk, IfSome, Ok, false, is_some};
ghost use Rattle.rv_cli.specs.Output.{IsOutput, OpensFor};
ghost use Rattle.rv_cli.specs.Support.Meanings.{IsRunOf};
ghost use Rattle.rv_cli.specs.Run.{Runs};
ghost use Rattle.rv_io.specs.Texts.{side, side_if};
ghost use Rattle.rv_io.specs.Within.{AreWithin};
ghost use Rattle.rv_cli.specs.declared.fault.CliFault.TheVariants.{OutOfMemory, ReadInput, ReadSource, Write};

use crate::fault::{CliFault, Ending};
use crate::print::{ending, print_board};
use crate::session::run_session;
use rv_asm::assemble;
use rv_base::NoMemory;
use rv_cache::{DecodeCache, Decoded};
use rv_io::{TextIn, TextOut, Texts, read_texts, write_whole};
use rv_monitor::{Session, open_session};
use rv_options::Options;
use rv_ram::{ByteMemory, PagedRam};
use std::alloc::Global;

/// The text that a run prints, and how the run ended.
#[derive(Drop)]
struct Printed {
    text: Vec<u8>,
    ending: Ending,
}

/// Runs a session, and returns the text to be printed.
fn print_session<M: ByteMemory, C: Decoded>(
    alloc: Global,
    session: &mut Session<M, C>,
    texts: &Texts,
) -> Result<Printed, NoMemory>
    ensures { IfOk result (λ p. IsRunOf texts.now.commands session.old (p.text.items, p.ending)) }
{
    let mut text = run_session(alloc, session, texts)?;
    print_board(session.board(), &mut text)?;
    let ending = ending(session.board());
    Ok(Printed { text, ending })
}

/// Assembles the source, and opens the session of its program with the timed list, on a board of the options and
/// with their limit.
#[tactic(auto, using(std::proofs::lemmas::Result::err_from_is_err_and, crate::proofs::Conversions::opening_refused, crate::proofs::Conversions::source_refused))]
fn open(
    alloc: Global,
    texts: &Texts,
    options: Options,
) -> Result<Session<PagedRam, DecodeCache>, CliFault>
    ensures ok { IfOk result (λ s. OpensFor texts.now options (Ok s)) }
    ensures err { IfErr result (λ fault. fault ≢ OutOfMemory → IsOutput texts.now options (Err fault)) }
{
    let program = assemble(alloc, texts.source())?;
    let pages = u32::from(options.pages);
    let slots = u32::from(options.slots);
    let limit = u64::from(options.steps);
    Ok(open_session(alloc, program, texts.inputs(), pages, slots, limit)?)
}

/// Opens the session of the texts, and runs it.
fn open_and_run(alloc: Global, texts: &Texts, options: Options) -> Result<Printed, CliFault>
    ensures ok { IfOk result (λ p. IsOutput texts.now options (Ok (p.text.items, p.ending))) }
    ensures err { IfErr result (λ fault. fault ≢ OutOfMemory → IsOutput texts.now options (Err fault)) }
{
    let mut session = open(alloc, texts, options)?;
    let printed = print_session(alloc, &mut session, texts)?;
    Ok(printed)
}

/// Runs a source with a timed list and commands, and writes the text that the run prints.
///
/// The three texts are read to their ends. The source is assembled, the timed list is read, and the image is
/// booted on a board of the options. The commands are executed, or all steps are taken if there are no
/// commands. The text has the answers of the commands, the console, a line end if the console lacks one, and
/// the status line.
///
/// # Errors
///
/// The first fault that applies, in the order of its numbers; `OutOfMemory` alone may stand in place of any
/// result but a fault that a reader or the writer had. Only `Write` leaves anything written: a prefix of the
/// text. After a reader's fault the readers that follow are not touched.
#[tactic(auto, using(std::proofs::lemmas::Result::err_from_is_err_and, crate::proofs::Conversions::is_input, crate::proofs::Conversions::is_source, crate::proofs::Refusals::refused_by, crate::proofs::Refusals::refused_unread))]
pub fn run_text<S: TextIn, I: TextIn, C: TextIn, W: TextOut>(
    alloc: Global,
    source: &mut S,
    inputs: &mut I,
    commands: &mut Option<C>,
    options: Options,
    out: &mut W,
) -> Result<Ending, CliFault>
    requires source { S.has_failed source.old ≡ false }
    requires inputs { I.has_failed inputs.old ≡ false }
    requires commands { IfSome commands.old (λ c. C.has_failed c ≡ false) }
    requires out { W.has_failed out.old ≡ false }
    ensures runs { Runs (record {
      source = side S.left S.has_failed source.old source.new;
      inputs = side I.left I.has_failed inputs.old inputs.new;
      commands = side_if C.left C.has_failed commands.old commands.new;
    })
        (side W.taken W.has_failed out.old out.new) options result }
    ensures there { is_some commands.new ≡ is_some commands.old }
    ensures unwritten { IfErr result (λ fault. fault ≢ Write → out.new ≡ out.old) }

    // What is read of a text that is too long: no more than a buffer beyond the limit.
    ensures within { AreWithin (record {
      source = side S.left S.has_failed source.old source.new;
      inputs = side I.left I.has_failed inputs.old inputs.new;
      commands = side_if C.left C.has_failed commands.old commands.new;
    }) }

    // After a reader's fault no reader that follows is touched.
    ensures after_source { IfErr result (λ fault. fault ≡ ReadSource → (inputs.new ≡ inputs.old)
        × (commands.new ≡ commands.old)) }
    ensures after_inputs { IfErr result (λ fault. fault ≡ ReadInput → commands.new ≡ commands.old) }
{
    let texts = read_texts(alloc, source, inputs, commands)?;
    let printed = open_and_run(alloc, &texts, options)?;
    write_whole(out, printed.text.as_slice())?;
    Ok(printed.ending)
}
