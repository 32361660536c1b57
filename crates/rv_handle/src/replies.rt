//! What a lab replies, as JSON and as text for people.
ghost use Rattle.std.specs.Prelude.{◌≡◌, IfOk, OnOk, string_bytes};
ghost use Rattle.rv_answers.specs.declared.answer.Answer.TheVariants.{Nothing};
ghost use Rattle.rv_handle.specs.Pages.{blank, reply_text, told_as};

use rv_base::NoMemory;
use rv_json::reply_json;
use rv_lab::{Lab, Next, Printer, Reply};
use std::alloc::Global;

/// Returns the word for what follows a command.
fn word_of(next: Next) -> &'static str
    ensures { result.now ≡ (told_as next).1 }
{
    match next {
        Next::More => "more",
        Next::Running => "running",
        Next::Save => "save",
        Next::Quit => "quit",
    }
}

/// Returns the JSON of a reply.
#[tactic(auto, unfolding(crate::specs::Pages::reply_text))]
fn json_of(alloc: Global, lab: &Lab, reply: &Reply) -> Result<String, NoMemory>
    ensures { IfOk result (λ s. string_bytes s ≡ reply_text lab.now reply.now) }
{
    let sent = lab.console_of(reply);
    reply_json(
        alloc,
        lab.listing(),
        &reply.answer,
        word_of(reply.next),
        sent,
    )
}

/// Puts a text into an empty one.
pub(crate) fn fill(text: &str, out: &mut Printer) -> Result<(), NoMemory>
    requires { out.old ≡ blank }
    ensures { OnOk result (out.new.bytes ≡ text.now) }
{
    out.say(text);
    if out.is_cut() {
        return Err(NoMemory);
    }
    Ok(())
}

/// Puts the JSON of a reply into an empty text, and appends to another its answer for people, without what the console
/// got. Returns what follows.
pub(crate) fn show(
    lab: &Lab,
    reply: Reply,
    json: &mut Printer,
    text: &mut Printer,
) -> Result<Next, NoMemory>
    requires { json.old ≡ blank }
    ensures next { IfOk result (λ n. n ≡ reply.next) }
    ensures json { OnOk result (json.new.bytes ≡ reply_text lab.now reply) }
    ensures quiet { OnOk result (reply.answer ≡ Nothing → text.new ≡ text.old) }
{
    let value = json_of(json.alloc(), lab, &reply)?;
    fill(&value, json)?;
    let next = reply.next;
    let silent = Reply {
        from: reply.to,
        ..reply
    };
    lab.append_reply(&silent, text);
    if text.is_cut() {
        return Err(NoMemory);
    }
    Ok(next)
}
