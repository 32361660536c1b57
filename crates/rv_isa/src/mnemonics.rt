//! The operation with a mnemonic, and its instruction with fields.
ghost use Rattle.std.specs.Prelude.{◌≡◌};
ghost use Rattle.rv_isa.specs.Fields.{zeroed, kind_of, with_fields};
ghost use Rattle.rv_isa.specs.Laws.{OneMnemonic, OneOperation};
ghost use Rattle.rv_isa.specs.Support.Mnemonics.{first_named, named};
ghost use Rattle.rv_isa.specs.Support.Kinds.{IsInRange};

use crate::layout::{normal, with};
use crate::op::beginning_with;
use crate::{Instr, Kind, Operation, Reg};

/// Returns the operation with a mnemonic, or `None` if no operation has it. Mnemonics are in lower case.
#[tactic(auto, using(crate::proofs::Named::named_among, crate::proofs::Named::none_named))]
pub fn operation_named(mnemonic: &[u8]) -> Option<Operation>
    ensures { result ≡ named mnemonic.now }
{
    let [letter, ..] = mnemonic else {
        return None;
    };
    first_named(beginning_with(*letter), mnemonic)
}

/// A law: a mnemonic is that of one operation or of none.
#[tactic(auto, using(crate::proofs::Named::one_mnemonic))]
pub fn one_mnemonic()
    ensures { OneMnemonic }
{}

/// A law: a kind is of one operation, whatever its fields.
#[tactic(auto, using(crate::proofs::Zeros::one_operation))]
pub fn one_operation()
    ensures { OneOperation }
{}

/// Returns the first of these operations with a mnemonic.
fn first_named(operations: &[Operation], mnemonic: &[u8]) -> Option<Operation>
    ensures { result ≡ first_named mnemonic.now operations.now }
{
    let [operation, rest @ ..] = operations else {
        return None;
    };
    if operation.mnemonic().as_bytes() == mnemonic {
        return Some(*operation);
    }
    first_named(rest, mnemonic)
}

impl Operation {
    /// Returns the instruction of the operation with these fields. Those that the operation doesn't have
    /// count for nothing.
    #[tactic(auto, using(crate::proofs::Normal::normal_laws))]
    pub fn with(self, rd: Reg, rs1: Reg, rs2: Reg, imm: i32) -> Instr
        requires { IsInRange (kind_of (with_fields self rd rs1 rs2 imm)) }
        ensures { result ≡ kind_of (with_fields self rd rs1 rs2 imm) }
    {
        let fields = with(self, rd, rs1, rs2, imm);
        Instr::laid(normal(self.codes().format, fields))
    }

    /// Returns the operation's kind, with zeros in all fields.
    #[tactic(auto, using(crate::proofs::Zeros::zeros_in_range), unfolding(crate::specs::Fields::zeroed))]
    pub fn kind(self) -> Kind
        ensures { result ≡ zeroed self }
    {
        let x0 = Reg::of(0);
        self.with(x0, x0, x0, 0).kind()
    }
}
