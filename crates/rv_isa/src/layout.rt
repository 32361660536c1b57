//! Kinds laid out as fields, and put together again: which field each operand of a kind is.
ghost use Rattle.std.specs.Prelude.{◌≡◌, ◌<◌, ◌^◌};
ghost use Rattle.rv_isa.specs.Fields as spec;
ghost use Rattle.rv_isa.specs.declared.kind.Kind.TheVariants as kind;
ghost use Rattle.rv_isa.specs.Support.Kinds as layout;
ghost use Rattle.rv_isa.specs.Support.Codes as codes;
ghost use Rattle.rv_isa.specs.Fields.{with_fields};
ghost use Rattle.rv_isa.specs.Support.Kinds.{IsInRange};

use crate::format::Format;
use crate::kind::kind;
use crate::{AluOp, Cond, CsrOp, Fields, ImmOp, Kind, LoadOp, Operation, Reg, ShiftOp, Width};

// ---- a kind's fields

/// Returns fields: a constructor, so that each kind's are on one line.
#[inline(always)]
pub(crate) fn with(operation: Operation, rd: Reg, rs1: Reg, rs2: Reg, imm: i32) -> Fields
    ensures { result ≡ with_fields operation rd rs1 rs2 imm }
{
    Fields {
        operation,
        rd,
        rs1,
        rs2,
        imm,
    }
}

/// Returns the fields that a format has; the others are 0.
#[inline(always)]
pub(crate) fn normal(format: Format, fields: Fields) -> Fields
    ensures { result ≡ codes.normal format fields }
{
    let x0 = Reg::of(0);
    let Fields {
        operation,
        rd,
        rs1,
        rs2,
        imm,
    } = fields;
    match format {
        Format::R => with(operation, rd, rs1, rs2, 0),
        Format::Amount | Format::I | Format::Number => with(operation, rd, rs1, x0, imm),
        Format::S | Format::B => with(operation, x0, rs1, rs2, imm),
        Format::U | Format::J => with(operation, rd, x0, x0, imm),
        Format::Whole => with(operation, x0, x0, x0, 0),
    }
}

/// Returns the fields of a kind. Where the kind is known, no match is left.
#[inline(always)]
#[tactic(auto, unfolding(crate::specs::Support::Kinds::fields_of))]
pub(crate) fn fields_of(kind: Kind) -> Fields
    requires { IsInRange kind }
    ensures { result ≡ layout.fields_of kind }
{
    let x0 = Reg::of(0);
    // A copy: for the borrow checker the call moves its argument.
    let named = kind;
    let operation = Operation::of(named);
    match kind {
        kind!(Lui rd imm) => with(operation, rd, x0, x0, imm as i32),
        kind!(Auipc rd imm) => with(operation, rd, x0, x0, imm as i32),
        kind!(Jal rd offset) => with(operation, rd, x0, x0, offset),
        kind!(Jalr rd base offset) => with(operation, rd, base, x0, offset),
        kind!(Branch _ rs1 rs2 offset) => with(operation, x0, rs1, rs2, offset),
        kind!(Load _ rd base offset) => with(operation, rd, base, x0, offset),
        kind!(Store _ source base offset) => with(operation, x0, base, source, offset),
        kind!(OpImm _ rd rs1 imm) => with(operation, rd, rs1, x0, imm),
        kind!(Shift _ rd rs1 amount) => with(operation, rd, rs1, x0, i32::from(amount)),
        kind!(Op _ rd rs1 rs2) => with(operation, rd, rs1, rs2, 0),
        kind!(Fence rd rs1 imm) => with(operation, rd, rs1, x0, i32::from(imm)),
        kind!(FenceI rd rs1 imm) => with(operation, rd, rs1, x0, i32::from(imm)),
        kind!(Csr _ rd rs1 csr) => with(operation, rd, rs1, x0, i32::from(csr)),
        kind!(CsrImm _ rd imm csr) => with(operation, rd, Reg::of(imm), x0, i32::from(csr)),
        Kind::Ecall | Kind::Ebreak | Kind::Mret | Kind::Wfi => with(operation, x0, x0, x0, 0),
    }
}

// ---- the kind of fields, which are read where they are used. Each form of several operations has a function of
// its own: written out in the arms of a match, their operands would be set to zero before each match.

/// Returns a branch.
#[inline(always)]
pub(crate) fn branch(cond: Cond, fields: &Fields) -> Kind
    ensures { result ≡ kind.Branch cond fields.now.rs1 fields.now.rs2 fields.now.imm }
{
    kind!(Branch cond (fields.rs1) (fields.rs2) (fields.imm))
}

/// Returns a load.
#[inline(always)]
pub(crate) fn load(op: LoadOp, fields: &Fields) -> Kind
    ensures { result ≡ kind.Load op fields.now.rd fields.now.rs1 fields.now.imm }
{
    kind!(Load op (fields.rd) (fields.rs1) (fields.imm))
}

/// Returns a store.
#[inline(always)]
pub(crate) fn store(width: Width, fields: &Fields) -> Kind
    ensures { result ≡ kind.Store width fields.now.rs2 fields.now.rs1 fields.now.imm }
{
    kind!(Store width (fields.rs2) (fields.rs1) (fields.imm))
}

/// Returns an operation on a register and an immediate.
#[inline(always)]
pub(crate) fn op_imm(op: ImmOp, fields: &Fields) -> Kind
    ensures { result ≡ kind.OpImm op fields.now.rd fields.now.rs1 fields.now.imm }
{
    kind!(OpImm op (fields.rd) (fields.rs1) (fields.imm))
}

/// Returns a shift by an immediate.
#[inline(always)]
pub(crate) fn shift(op: ShiftOp, fields: &Fields) -> Kind
    requires { spec.to_word fields.now.imm < 2 ^ 5 }
    ensures { result ≡ kind.Shift op fields.now.rd fields.now.rs1 (spec.to_word fields.now.imm) }
{
    kind!(Shift op (fields.rd) (fields.rs1) (low_byte(fields.imm)))
}

/// Returns an operation on two registers.
#[inline(always)]
pub(crate) fn op(op: AluOp, fields: &Fields) -> Kind
    ensures { result ≡ kind.Op op fields.now.rd fields.now.rs1 fields.now.rs2 }
{
    kind!(Op op (fields.rd) (fields.rs1) (fields.rs2))
}

/// Returns a change of a control register by a register.
#[inline(always)]
pub(crate) fn csr(op: CsrOp, fields: &Fields) -> Kind
    requires { spec.to_word fields.now.imm < 2 ^ 12 }
    ensures { result ≡ kind.Csr op fields.now.rd fields.now.rs1 (spec.to_word fields.now.imm) }
{
    kind!(Csr op (fields.rd) (fields.rs1) (low_half(fields.imm)))
}

/// Returns a change of a control register by a number.
#[inline(always)]
pub(crate) fn csr_imm(op: CsrOp, fields: &Fields) -> Kind
    requires { spec.to_word fields.now.imm < 2 ^ 12 }
    ensures { result ≡ kind.CsrImm op fields.now.rd fields.now.rs1 (spec.to_word fields.now.imm) }
{
    kind!(CsrImm op (fields.rd) (fields.rs1.number()) (low_half(fields.imm)))
}

/// Expands to a kind of a row of the table, with the operands that the fields have for it.
macro_rules! made {
    ($f:ident (Lui)) => { kind!(Lui ($f.rd) ($f.imm.cast_unsigned())) };
    ($f:ident (Auipc)) => { kind!(Auipc ($f.rd) ($f.imm.cast_unsigned())) };
    ($f:ident (Jal)) => { kind!(Jal ($f.rd) ($f.imm)) };
    ($f:ident (Jalr)) => { kind!(Jalr ($f.rd) ($f.rs1) ($f.imm)) };
    ($f:ident (Branch $cond:tt)) => { branch($cond, $f) };
    ($f:ident (Load $op:tt)) => { load($op, $f) };
    ($f:ident (Store $width:tt)) => { store($width, $f) };
    ($f:ident (OpImm $op:tt)) => { op_imm($op, $f) };
    ($f:ident (Shift $op:tt)) => { shift($op, $f) };
    ($f:ident (Op $op:tt)) => { op($op, $f) };
    ($f:ident (Csr $op:tt)) => { csr($op, $f) };
    ($f:ident (CsrImm $op:tt)) => { csr_imm($op, $f) };
    ($f:ident (Fence)) => { kind!(Fence ($f.rd) ($f.rs1) (low_half($f.imm))) };
    ($f:ident (FenceI)) => { kind!(FenceI ($f.rd) ($f.rs1) (low_half($f.imm))) };
    ($f:ident ($kind:ident)) => { Kind::$kind };
}

pub(crate) use made;

/// Expands to the pattern of a kind of a row of the table.
macro_rules! any {
    ((Branch $cond:tt)) => { Kind::Branch { cond: $cond, .. } };
    ((Store $width:tt)) => { Kind::Store { width: $width, .. } };
    (($kind:ident $op:tt)) => { Kind::$kind { op: $op, .. } };
    (($kind:ident)) => { Kind::$kind { .. } };
}

pub(crate) use any;

/// Returns an immediate of five bits.
#[inline(always)]
pub(crate) fn low_byte(imm: i32) -> u8
    requires { spec.to_word imm < 2 ^ 5 }
    ensures { result ≡ spec.to_word imm }
{
    imm.cast_unsigned() as u8
}

/// Returns an immediate of twelve bits.
#[inline(always)]
pub(crate) fn low_half(imm: i32) -> u16
    requires { spec.to_word imm < 2 ^ 12 }
    ensures { result ≡ spec.to_word imm }
{
    imm.cast_unsigned() as u16
}
