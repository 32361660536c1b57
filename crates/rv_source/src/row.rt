//! The rows of the language's tables: what a word takes, and what it stands for.
ghost use Rattle.std.specs.Prelude.{◌≡◌};
ghost use Rattle.rv_source.specs.Support.Partial.{row_by, row_of};
ghost use Rattle.rv_source.specs.Table.{meant, of_template};

use crate::field::{Fields, given, in_roles, instruction, name_alone, takes_all};
use crate::{Operand, Statement, Strings, Values};
use rv_isa::{Operation, Width};

/// A kind of operand, and the field of an instruction that it gives.
#[derive(Clone, Copy)]
pub enum Role {
    /// A register.
    Rd,
    /// A register.
    Rs1,
    /// A register.
    Rs2,
    /// A register, for `rd` and for `rs1`.
    Both,
    /// `i`: a value or its lower part.
    Imm,
    /// `u`: a value or its upper part.
    Upper,
    /// `E`, or a target: a value.
    Value,
    /// `m`: a value or its lower part, and the register `rs1`.
    Memory,
    /// A control register.
    Csr,
    /// What a fence orders before it.
    Before,
    /// What a fence orders after it.
    After,
    /// A name other than `.`.
    Symbol,
    /// A second value.
    Second,
    /// A string.
    Text,
}

/// What a row stands for.
#[derive(Clone, Copy)]
pub enum Template {
    /// An instruction.
    Near(Operation),
    /// AUIPC into `rs1`, and an instruction that takes the lower part of the distance.
    Far(Operation),
    /// `li`
    Li,
    /// Values of a width.
    Data(Width),
    /// Strings, each followed by a byte 0 if they are terminated.
    Text { terminated: bool },
    /// A value that is a size, and a second one that fills it.
    Space,
    /// A value that is a power of two.
    Align,
    /// A value that is a multiple.
    Balign,
    /// A name and its value.
    Constant,
}

/// The fields of an instruction before its operands are read: what isn't said is 0, or the sets `iorw` of a
/// fence.
#[derive(Clone, Copy)]
pub enum Given {
    Zeros,
    /// `rd` is x1.
    Link,
    /// `rs1` is x1.
    Return,
    /// `rd` and `rs1` are x1.
    Call,
    /// `rs1` is x6.
    Tail,
    /// The immediate is 1.
    One,
    /// The immediate is -1.
    Ones,
}

/// A row: one shape of a word.
#[derive(Clone, Copy)]
pub enum Row {
    /// As many operands as there are roles, each in its role.
    These(&'static [Role], Template, Given),
    /// One or more operands, all in one role.
    Each(Role, Template),
}

/// A way to write an instruction: a row without its operation.
#[derive(Clone, Copy)]
pub enum Way {
    /// The instruction alone.
    Near(&'static [Role]),
    /// The instruction alone, with x1 in `rd`.
    Link(&'static [Role]),
    /// AUIPC and the instruction, which together reach a target, however far.
    Far(&'static [Role]),
}

impl Way {
    /// Returns the row of an operation that is written in this way.
    pub fn row(self, operation: Operation) -> Row
        ensures { row_of result ≡ row_by operation self }
    {
        match self {
            Way::Near(roles) => Row::These(roles, Template::Near(operation), Given::Zeros),
            Way::Link(roles) => Row::These(roles, Template::Near(operation), Given::Link),
            Way::Far(roles) => Row::These(roles, Template::Far(operation), Given::Zeros),
        }
    }
}

// ---- the statement of a row

/// Returns the statement of a template with these operands, which gave these fields.
#[tactic(auto, unfolding(crate::specs::Fields::instruction, crate::specs::Table::of_template))]
fn fill<'t, 'a>(
    template: Template,
    operands: &'t [Operand<'a>],
    mut fields: Fields<'t, 'a>,
) -> Option<Statement<'t, 'a>>
    ensures { result ≡ of_template template operands.now fields.entry }
{
    let (value, second) = (fields.value.take(), fields.second.take());
    match template {
        Template::Near(operation) => {
            let instr = instruction(operation, &fields);
            match value {
                Some(value) => Some(Statement::WithValue { instr, value }),
                None => Some(Statement::Instruction(instr)),
            }
        }
        Template::Far(operation) => Some(Statement::Far {
            scratch: fields.rs1,
            instr: instruction(operation, &fields),
            target: value?,
        }),
        Template::Li => Some(Statement::Li {
            rd: fields.rd,
            value: value?,
        }),
        Template::Data(width) => Some(Statement::Data {
            width,
            values: Values(operands),
        }),
        Template::Text { terminated } => {
            let texts = operands;
            Some(Statement::Bytes(Strings { terminated, texts }))
        }
        Template::Space => Some(Statement::Space {
            size: value?,
            fill: second,
        }),
        Template::Align => Some(Statement::Align { power: value? }),
        Template::Balign => Some(Statement::Balign { multiple: value? }),
        Template::Constant => {
            let (name, value) = (name_alone(value?.operand())?, second?);
            Some(Statement::Constant { name, value })
        }
    }
}

/// Returns the statement of a row with these operands, or `None` if it doesn't take them.
pub fn meant<'t, 'a>(row: Row, operands: &'t [Operand<'a>]) -> Option<Statement<'t, 'a>>
    ensures { result ≡ meant (row_of row) operands.now }
{
    match row {
        Row::These(roles, template, start) => {
            fill(template, operands, in_roles(roles, operands, given(start))?)
        }
        Row::Each(role, template) => {
            if operands.is_empty() || !takes_all(role, operands) {
                return None;
            }
            fill(template, operands, given(Given::Zeros))
        }
    }
}
