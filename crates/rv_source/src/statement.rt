//! Statements: mnemonics and directives with their operands, before expressions are evaluated.
use crate::{Form, Operand};
use rv_isa::{Instr, Reg, Width};
use rv_tokens::Name;
use std::alloc::AllocError;
use std::marker::Model;

/// An operand whose value is taken, borrowed from its line. Its view is the operand.
#[derive(Drop)]
pub struct Value<'t, 'a>(pub(crate) &'t Operand<'a>);

impl<'t, 'a> Model for Value<'t, 'a> {
    ghost use Rattle.rv_source.specs.declared.operand.Operand.{Operand};

    ghost Value = { Operand };

    ghost view = { λ v. v.0.now };
}

impl<'t, 'a> Value<'t, 'a> {
    ghost use Rattle.std.specs.Prelude.{◌≡◌};

    /// Returns the operand.
    pub fn operand(&self) -> &'t Operand<'a>
        ensures { result.now ≡ self.now }
    {
        self.0
    }
}

/// The operands of a data directive, borrowed from their line. The view is the list of them.
#[derive(Drop)]
pub struct Values<'t, 'a>(pub(crate) &'t [Operand<'a>]);

impl<'t, 'a> Model for Values<'t, 'a> {
    ghost use Rattle.std.specs.Prelude.{List};
    ghost use Rattle.rv_source.specs.declared.operand.Operand.{Operand};

    ghost Value = { List Operand };

    ghost view = { λ v. v.0.now };
}

impl<'t, 'a> Values<'t, 'a> {
    ghost use Rattle.std.specs.Prelude.{◌≡◌};

    /// Returns the operands, from left to right.
    pub fn as_slice(&self) -> &'t [Operand<'a>]
        ensures { result.now ≡ self.now }
    {
        self.0
    }
}

/// The strings of a directive, borrowed from their line. The view is their bytes, each string followed by a
/// byte 0 if they are terminated.
#[derive(Drop)]
pub struct Strings<'t, 'a> {
    pub(crate) terminated: bool,
    pub(crate) texts: &'t [Operand<'a>],
}

impl<'t, 'a> Model for Strings<'t, 'a> {
    ghost use Rattle.std.specs.Prelude.{List, ℕ};
    ghost use Rattle.rv_source.specs.Operands.{strings};

    ghost Value = { List ℕ };

    ghost view = { λ s. strings s.terminated s.texts.now };
}

impl<'t, 'a> Strings<'t, 'a> {
    ghost use Rattle.std.specs.Prelude.{◌≡◌, ◌++◌, OnOk, length, min};

    /// Returns the number of bytes, saturated at 2^32 - 1.
    #[tactic(auto, unfolding(crate::specs::Operands::strings))]
    pub fn size(&self) -> u32
        ensures { result ≡ min (length self.now) 0xffffffff }
    {
        let mut size: u32 = 0;
        for operand in self.texts {
            if let Form::Text(text) = &operand.form {
                size = size.saturating_add(text.len().min(0xffff_ffff) as u32);
            }
            size = size.saturating_add(u32::from(self.terminated));
        }
        size
    }

    /// Appends the bytes.
    #[tactic(auto, unfolding(crate::specs::Operands::strings))]
    pub fn append_to(&self, out: &mut Vec<u8>) -> Result<(), AllocError>
        ensures { OnOk result (out.new.items ≡ out.old.items ++ self.now) }
    {
        for operand in self.texts {
            if let Form::Text(text) = &operand.form {
                text.append_to(out)?;
            }
            if self.terminated {
                out.push(0)?;
            }
        }
        Ok(())
    }
}

/// A statement of a line. Where an instruction waits for a value, its field is 0.
#[derive(Drop)]
pub enum Statement<'t, 'a> {
    /// An instruction that waits for nothing.
    Instruction(Instr),
    /// An instruction that waits for the part of a value.
    WithValue {
        instr: Instr,
        value: Value<'t, 'a>,
    },
    /// Two instructions that reach a target, however far: AUIPC into `scratch`, which takes the upper part of
    /// the distance, and one that takes the lower part.
    Far {
        scratch: Reg,
        instr: Instr,
        target: Value<'t, 'a>,
    },
    /// `li`: the value is loaded by one or two instructions.
    Li {
        rd: Reg,
        value: Value<'t, 'a>,
    },
    /// Values of a width.
    Data {
        width: Width,
        values: Values<'t, 'a>,
    },
    /// The bytes of strings.
    Bytes(Strings<'t, 'a>),
    /// As many bytes as `size` says, each of them `fill`, or 0 if it is None.
    Space {
        size: Value<'t, 'a>,
        fill: Option<Value<'t, 'a>>,
    },
    /// Padding to a multiple of 2 to the power.
    Align {
        power: Value<'t, 'a>,
    },
    /// Padding to a multiple.
    Balign {
        multiple: Value<'t, 'a>,
    },
    /// `.equ`: a name and its value.
    Constant {
        name: Name<'a>,
        value: Value<'t, 'a>,
    },
    /// A directive without effect, as `.text`.
    Marker,
}
