//! The texts of a run, read from their readers.
ghost use Rattle.std.specs.Prelude.{◌≡◌, ◌⊎◌, IfErr, IfOk, IfSome, IsSomeAnd, false, is_some, true};
ghost use Rattle.std.specs.Option.{option_map};
ghost use Rattle.rv_io.specs.Support.Calls.{GaveIf};
ghost use Rattle.rv_io.specs.Readers.{Reads};
ghost use Rattle.rv_io.specs.Texts.{IsSound, side, side_if};
ghost use Rattle.rv_io.specs.Within.{AreWithin, IsWithin};
ghost use Rattle.rv_io.specs.declared.fault.ReadFault.TheVariants.{OutOfMemory, Unreadable};
ghost use Rattle.rv_io.specs.declared.fault.TextName.TheVariants.{Commands, Input, Source};

use crate::fault::{ReadFault, TextName};
use crate::text::{TextIn, read_text};
use std::alloc::Global;
use std::marker::Model;

/// The texts of a run: its source, its timed list, and its commands, if it has any.
#[derive(Drop)]
pub struct Texts {
    source: Vec<u8>,
    inputs: Vec<u8>,
    commands: Option<Vec<u8>>,
}

impl Model for Texts {
    ghost use Rattle.std.specs.Option.{option_map};
    ghost use Rattle.std.specs.Prelude.{List, ℕ};
    ghost use Rattle.rv_io.specs.Readers.{EachText};

    ghost Value = { EachText (List ℕ) };

    ghost view = { λ t. record { source = t.source.items; inputs = t.inputs.items; commands = option_map (λ text. text.items) t.commands } };
}

impl Texts {
    ghost use Rattle.std.specs.Prelude.{◌≡◌};
    ghost use Rattle.std.specs.Option.{option_map};

    /// Returns the bytes of the source.
    pub fn source(&self) -> &[u8]
        ensures { result.now ≡ self.now.source }
    {
        self.source.as_slice()
    }

    /// Returns the bytes of the timed list, which is empty where the run has none.
    pub fn inputs(&self) -> &[u8]
        ensures { result.now ≡ self.now.inputs }
    {
        self.inputs.as_slice()
    }

    /// Returns the bytes of the commands, if the run has any.
    pub fn commands(&self) -> Option<&[u8]>
        ensures { option_map (λ text. text.now) result ≡ self.now.commands }
    {
        self.commands.as_ref().map(|commands| commands.as_slice())
    }
}

/// Reads the commands to their end, if they have a reader.
fn read_commands<C: TextIn>(
    alloc: Global,
    commands: &mut Option<C>,
) -> Result<Option<Vec<u8>>, ReadFault>
    requires { IfSome commands.old (λ c. C.has_failed c ≡ false) }
    ensures ok { IfOk result (λ text.
        GaveIf (side_if C.left C.has_failed commands.old commands.new) (option_map (λ t. t.items) text)) }
    ensures err { IfErr result (λ fault.
        ((fault ≡ Unreadable Commands)
        × IsSomeAnd (side_if C.left C.has_failed commands.old commands.new) (IsSound false))
        ⊎ ((fault ≡ OutOfMemory)
        × IfSome (side_if C.left C.has_failed commands.old commands.new) (IsSound true))) }
    ensures within { IfSome (side_if C.left C.has_failed commands.old commands.new) IsWithin }
    ensures there { is_some commands.new ≡ is_some commands.old }
{
    let Some(reader) = commands else {
        return Ok(None);
    };
    let text = read_text(alloc, TextName::Commands, reader)?;
    Ok(Some(text))
}

/// Reads all texts to their ends, in this order: the source, the timed list, the commands.
///
/// # Errors
///
/// - `Unreadable` with the first text whose reader fails or gives more than 16,777,216 bytes. That reader is
///   not read again, and the readers that follow are not touched.
/// - `OutOfMemory` if memory runs out, while the readers are in order.
pub fn read_texts<S: TextIn, I: TextIn, C: TextIn>(
    alloc: Global,
    source: &mut S,
    inputs: &mut I,
    commands: &mut Option<C>,
) -> Result<Texts, ReadFault>
    requires source { S.has_failed source.old ≡ false }
    requires inputs { I.has_failed inputs.old ≡ false }
    requires commands { IfSome commands.old (λ c. C.has_failed c ≡ false) }
    ensures read { Reads (record {
      source = side S.left S.has_failed source.old source.new;
      inputs = side I.left I.has_failed inputs.old inputs.new;
      commands = side_if C.left C.has_failed commands.old commands.new;
    }) result }
    ensures there { is_some commands.new ≡ is_some commands.old }

    // What is read of a text that is too long: no more than a buffer beyond the limit.
    ensures within { AreWithin (record {
      source = side S.left S.has_failed source.old source.new;
      inputs = side I.left I.has_failed inputs.old inputs.new;
      commands = side_if C.left C.has_failed commands.old commands.new;
    }) }

    // After a reader's fault no reader that follows is touched.
    ensures after_source { IfErr result (λ fault. fault ≡ Unreadable Source → (inputs.new ≡ inputs.old)
        × (commands.new ≡ commands.old)) }
    ensures after_inputs { IfErr result (λ fault. fault ≡ Unreadable Input → commands.new ≡ commands.old) }
{
    let source = read_text(alloc, TextName::Source, source)?;
    let inputs = read_text(alloc, TextName::Input, inputs)?;
    let commands = read_commands(alloc, commands)?;
    Ok(Texts {
        source,
        inputs,
        commands,
    })
}
