//! The status line: how a board stands after its steps.
ghost use Rattle.std.specs.Prelude.{◌≡◌, ◌++◌, OnOk};
ghost use Rattle.rv_monitor.specs.Views as spec;
ghost use Rattle.rv_cli.specs.Support.Shown.{stand_of, status_text};

use crate::fault::append;
use rv_base::{NoMemory, word_digits};

/// Appends how a board stands: that it has halted and with which code, or else the pc at which it runs.
fn append_stand(halted: Option<u16>, pc: u32, text: &mut Vec<u8>) -> Result<(), NoMemory>
    ensures { OnOk result (text.new.items ≡ text.old.items ++ stand_of halted pc) }
{
    if let Some(code) = halted {
        let stand = format!(in *text.allocator(); "halted {code}")?;
        return append(&stand, text);
    }
    append("running at ", text)?;
    Ok(text.extend_from_slice(&word_digits(pc))?)
}

/// Appends the status line, with its line end: how a board stands, and how many steps it has taken. Where memory runs
/// out, the text ends with a prefix of it.
pub(crate) fn append_status(
    halted: Option<u16>,
    pc: u32,
    steps: u64,
    text: &mut Vec<u8>,
) -> Result<(), NoMemory>
    ensures { OnOk result (text.new.items ≡ text.old.items ++ spec.line (status_text halted pc steps)) }
{
    append_stand(halted, pc, text)?;
    let rest = format!(in *text.allocator(); " after {steps} steps\n")?;
    append(&rest, text)
}
