//! What command lines answer that ask for nothing else, as JSON.
ghost use Rattle.std.specs.Prelude.{◌≡◌, ◌++◌, false, IfOk, OnOk, option_map, string_bytes};
ghost use Rattle.rv_base.specs.Lines.{lines};
ghost use Rattle.rv_handle.specs.Pages.{look_line, look_text, looks};

use rv_base::{NoMemory, cut_lines};
use rv_json::answer_json;
use rv_lab::{Lab, Printer};
use std::alloc::Global;

/// Returns the JSON of what a command line answers, if it asks for nothing else.
#[tactic(auto, unfolding(crate::specs::Pages::look_text))]
fn look_json(lab: &Lab, line: &[u8], alloc: Global) -> Result<Option<String>, NoMemory>
    ensures { IfOk result (λ json. option_map string_bytes json ≡ look_text lab.now line.now) }
{
    match lab.look(line)? {
        Some(answer) => Ok(Some(answer_json(alloc, lab.listing(), &answer)?)),
        None => Ok(None),
    }
}

/// Appends what a command line answers, as a line of JSON, or `null` where it asks for more.
fn append_look(lab: &Lab, line: &[u8], answer: &mut Printer) -> Result<(), NoMemory>
    requires { answer.old.is_cut ≡ false }
    ensures { OnOk result (answer.new ≡ record { bytes = answer.old.bytes ++ look_line lab.now line.now; is_cut = false }) }
{
    match look_json(lab, line, answer.alloc())? {
        Some(json) => answer.say(&json),
        None => answer.say("null"),
    }
    answer.put(b"\n");
    if answer.is_cut() {
        return Err(NoMemory);
    }
    Ok(())
}

/// Appends what each line of a text answers.
pub(crate) fn append_looks(lab: &Lab, text: &[u8], answer: &mut Printer) -> Result<(), NoMemory>
    requires { answer.old.is_cut ≡ false }
    ensures { OnOk result (answer.new.bytes ≡ answer.old.bytes ++ looks lab.now (lines text.now)) }
{
    for line in cut_lines(text) {
        append_look(lab, line, answer)?;
    }
    Ok(())
}
