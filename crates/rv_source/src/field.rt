//! Reads the operands of a row into the fields of an instruction.
ghost use Rattle.std.specs.Prelude.{◌≡◌, ◌^◌, option_and_then};
ghost use Rattle.std.specs.List.{list_all};
ghost use Rattle.std.specs.Option.{option_map};
ghost use Rattle.rv_isa.specs.Number.{IsWithin};
ghost use Rattle.rv_isa.specs.Names.{csr_names, register_names};
ghost use Rattle.rv_source.specs.Fields.{atom_alone, base, csr_of, entry_in, fence_sets, immediate_of, in_roles, instruction, in_role, takes};
ghost use Rattle.rv_source.specs.Support.Partial.{given, name_alone};
ghost use Rattle.rv_base.specs.Tables.{lookup};

use crate::row::{Given, Role};
use crate::{Atom, Form, Operand, Part, Value};
use rv_base::look_up;
use rv_isa::{Instr, Kind, Operation, Reg, csr_named, reg_named};
use rv_tokens::Name;
use std::marker::Model;

/// A number below a bound.
#[derive(Clone, Copy)]
pub struct Below<const BOUND: u16>(u16);

impl<const BOUND: u16> Model for Below<BOUND> {
    ghost use Rattle.std.specs.Prelude.{ℕ, ◌<◌};

    ghost Value = { ℕ };

    ghost view = { λ b. b.0 };

    ghost invariant = { λ b. b.0 < BOUND };

    ghost inverse = { λ n. record { 0 = n } };
}

impl<const BOUND: u16> Below<BOUND> {
    ghost use Rattle.std.specs.Prelude.{◌≡◌, ◌<◌};

    /// Returns the number.
    fn number(self) -> u16
        ensures value { result ≡ self.entry }
        ensures below { result < BOUND }
    {
        self.0
    }
}

/// The number of a control register, whether it exists or not (RISC-V Unprivileged ISA 20191213, section
/// 9.1).
type Csr = Below<4096>;

/// A set of accesses that a fence orders: `i` 8, `o` 4, `r` 2 and `w` 1, added up.
type FenceSet = Below<16>;

/// What the operands of a row give: the fields of an instruction, and the operands whose values it waits for.
#[derive(Drop)]
pub struct Fields<'t, 'a> {
    pub rd: Reg,
    pub rs1: Reg,
    pub rs2: Reg,
    pub imm: i8,
    pub csr: Csr,
    pub before: FenceSet,
    pub after: FenceSet,
    pub value: Option<Value<'t, 'a>>,
    pub second: Option<Value<'t, 'a>>,
}

// ---- operands in their roles

/// Returns the atom that an operand is, if it is one token.
fn atom_alone<'t, 'a>(operand: &'t Operand<'a>) -> Option<&'t Atom<'a>>
    ensures { option_map (λ a. a.now) result ≡ atom_alone operand.now }
{
    match &operand.form {
        Form::Value { sum, .. } if operand.count == 1 => Some(&sum.terms().0.atom),
        _ => None,
    }
}

/// Returns the name that an operand is.
pub fn name_alone<'a>(operand: &Operand<'a>) -> Option<Name<'a>>
    ensures { result ≡ name_alone operand.now }
{
    match atom_alone(operand) {
        Some(Atom::Symbol(name)) => Some(name.again()),
        _ => None,
    }
}

/// Returns the register that an operand names.
fn register(operand: &Operand) -> Option<Reg>
    ensures { result ≡ entry_in register_names operand.now }
{
    reg_named(name_alone(operand)?.bytes())
}

/// Returns the control register that an operand is, by its name or its number of twelve bits.
#[tactic(auto, using(crate::proofs::Sets::csr_below))]
fn control_register(operand: &Operand) -> Option<Csr>
    ensures { result ≡ option_and_then csr_of (atom_alone operand.now) }
{
    match atom_alone(operand)? {
        Atom::Symbol(name) => Some(Below(csr_named(name.bytes())?)),
        Atom::Number(number) if *number < 4096 => Some(Below(*number as u16)),
        _ => None,
    }
}

/// The sets of accesses, each with the sum of its letters.
static FENCE_SETS: [(&str, u16); 15] = [
    ("w", 1),
    ("r", 2),
    ("rw", 3),
    ("o", 4),
    ("ow", 5),
    ("or", 6),
    ("orw", 7),
    ("i", 8),
    ("iw", 9),
    ("ir", 10),
    ("irw", 11),
    ("io", 12),
    ("iow", 13),
    ("ior", 14),
    ("iorw", 15),
];

/// Returns the set of accesses that an operand names: one or more of `iorw`, in this order.
#[tactic(auto, using(crate::proofs::Sets::below), unfolding(crate::specs::Fields::fence_sets))]
fn set(operand: &Operand) -> Option<FenceSet>
    ensures { result ≡ entry_in fence_sets operand.now }
{
    Some(Below(look_up(&FENCE_SETS, name_alone(operand)?.bytes())?))
}

/// Returns whether a role takes the form of an operand: a string; or a value without a base, whole or the
/// part that its role also takes.
fn takes(role: Role, operand: &Operand) -> bool
    ensures { result ≡ takes role operand.now.form }
{
    match &operand.form {
        Form::Text(_) => matches!(role, Role::Text),
        Form::Value { base: Some(_), .. } => false,
        Form::Value { part, .. } => match part {
            Part::Whole => !matches!(role, Role::Text),
            Part::High => matches!(role, Role::Upper),
            Part::Low => matches!(role, Role::Imm),
        },
    }
}

/// Returns whether a role takes the forms of all operands.
pub fn takes_all(role: Role, operands: &[Operand]) -> bool
    ensures { result ≡ list_all (λ x. takes role x.form) operands.now }
{
    operands.iter().all(|operand| takes(role, operand))
}

/// Returns the register of the base of an operand.
fn base(operand: &Operand) -> Option<Reg>
    ensures { result ≡ base operand.now.form }
{
    match &operand.form {
        Form::Value { base, .. } => reg_named(base.as_ref()?.bytes()),
        Form::Text(_) => None,
    }
}

/// Returns the fields with an operand in its role.
#[tactic(auto, unfolding(crate::specs::Fields::in_role))]
pub fn put<'t, 'a>(
    role: Role,
    operand: &'t Operand<'a>,
    mut fields: Fields<'t, 'a>,
) -> Option<Fields<'t, 'a>>
    ensures { result ≡ in_role role operand.now fields.entry }
{
    match role {
        Role::Rd => fields.rd = register(operand)?,
        Role::Rs1 => fields.rs1 = register(operand)?,
        Role::Rs2 => fields.rs2 = register(operand)?,
        Role::Both => {
            fields.rd = register(operand)?;
            fields.rs1 = fields.rd;
        }
        Role::Csr => fields.csr = control_register(operand)?,
        Role::Before => fields.before = set(operand)?,
        Role::After => fields.after = set(operand)?,
        Role::Memory => {
            fields.rs1 = base(operand)?;
            fields.value = Some(Value(operand));
        }
        Role::Symbol => {
            name_alone(operand)?;
            fields.value = Some(Value(operand));
        }
        _ if !takes(role, operand) => return None,
        Role::Second => fields.second = Some(Value(operand)),
        _ => fields.value = Some(Value(operand)),
    }
    Some(fields)
}

/// Returns the fields with as many operands as there are roles, each in its role.
#[tactic(auto, unfolding(crate::specs::Fields::in_roles))]
pub fn in_roles<'t, 'a>(
    roles: &[Role],
    operands: &'t [Operand<'a>],
    fields: Fields<'t, 'a>,
) -> Option<Fields<'t, 'a>>
    ensures { result ≡ in_roles roles.now operands.now fields.entry }
{
    let [role, roles @ ..] = roles else {
        return operands.is_empty().then_some(fields);
    };
    let [operand, operands @ ..] = operands else {
        return None;
    };
    in_roles(roles, operands, put(*role, operand, fields)?)
}

/// Returns the fields before operands are read.
pub fn given<'t, 'a>(fields: Given) -> Fields<'t, 'a>
    ensures { result ≡ given fields }
{
    let (x0, x1, x6) = (Reg::of(0), Reg::of(1), Reg::of(6));
    let (rd, rs1, imm) = match fields {
        Given::Zeros => (x0, x0, 0),
        Given::Link => (x1, x0, 0),
        Given::Return => (x0, x1, 0),
        Given::Call => (x1, x1, 0),
        Given::Tail => (x0, x6, 0),
        Given::One => (x0, x0, 1),
        Given::Ones => (x0, x0, -1),
    };
    Fields {
        rd,
        rs1,
        rs2: x0,
        imm,
        csr: Below(0),
        before: Below(15),
        after: Below(15),
        value: None,
        second: None,
    }
}

// ---- instructions

/// Returns the immediate of an instruction of this kind; 0 where it waits for a value.
fn immediate(kind: Kind, fields: &Fields) -> i32
    ensures value { result ≡ immediate_of kind fields.now }
    ensures given { IsWithin (2 ^ 11) fields.now.imm }
{
    let given = i32::from(fields.imm);
    match kind {
        Kind::OpImm { .. } => given,
        Kind::Csr { .. } | Kind::CsrImm { .. } => i32::from(fields.csr.number()),
        Kind::Fence { .. } => i32::from(16 * fields.before.number() + fields.after.number()),
        _ => 0,
    }
}

/// Returns the instruction of an operation with these fields; the field of a value that it waits for is 0.
#[tactic(auto, unfolding(crate::specs::Fields::instruction))]
pub fn instruction(operation: Operation, fields: &Fields) -> Instr
    ensures { result ≡ instruction operation fields.now }
{
    let (rd, rs1, rs2) = (fields.rd, fields.rs1, fields.rs2);
    let (csr, before, after) = (fields.csr, fields.before, fields.after);
    // These are called for what they say of their ranges.
    let _ = (rd.number(), rs1.number(), rs2.number());
    let _ = (csr.number(), before.number(), after.number());
    operation.with(rd, rs1, rs2, immediate(operation.kind(), fields))
}
