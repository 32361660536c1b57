//! The table of instructions: a row for each operation, by which it is named, encoded and decoded, and by which
//! its kind is made.
ghost use Rattle.std.specs.Prelude.{◌≡◌};
ghost use Rattle.rv_isa.specs.Fields as spec;
ghost use Rattle.rv_isa.specs.Support.Codes.{codes_of, HasOperation};
ghost use Rattle.rv_isa.specs.Support.Kinds as kinds;
ghost use Rattle.rv_isa.specs.Support.Kinds.{IsInRange};
ghost use Rattle.rv_isa.specs.Table.{mnemonic, row};

use crate::format::{Codes, Format};
use crate::kind::kind;
use crate::layout::{any, branch, csr, csr_imm, load, low_half, made, op, op_imm, shift, store};
use crate::{AluOp, Cond, CsrOp, Fields, ImmOp, Kind, LoadOp, Operation, ShiftOp, Width};

/// Gives a macro what stands behind its name, and then the rows of the table.
///
/// A row is an operation with its mnemonic, its format, its opcode, funct3 and funct7 (`_` where the format has
/// none), and its kind with what tells it from the others of that kind. A `Whole` word is its own opcode. RISC-V
/// Unprivileged ISA 20191213, chapter 24; Privileged Architecture 20211203, sections 3.3.2 and 3.3.3.
macro_rules! table {
    ($rows:ident $given:tt) => {
        $rows! {
            $given
            (Lui "lui" U 0x37 _ _ (Lui))
            (Auipc "auipc" U 0x17 _ _ (Auipc))
            (Jal "jal" J 0x6f _ _ (Jal))
            (Jalr "jalr" I 0x67 0 _ (Jalr))
            (Beq "beq" B 0x63 0 _ (Branch (Cond::Eq)))
            (Bne "bne" B 0x63 1 _ (Branch (Cond::Ne)))
            (Blt "blt" B 0x63 4 _ (Branch (Cond::Lt)))
            (Bge "bge" B 0x63 5 _ (Branch (Cond::Ge)))
            (Bltu "bltu" B 0x63 6 _ (Branch (Cond::Ltu)))
            (Bgeu "bgeu" B 0x63 7 _ (Branch (Cond::Geu)))
            (Lb "lb" I 0x03 0 _ (Load (LoadOp::Lb)))
            (Lh "lh" I 0x03 1 _ (Load (LoadOp::Lh)))
            (Lw "lw" I 0x03 2 _ (Load (LoadOp::Lw)))
            (Lbu "lbu" I 0x03 4 _ (Load (LoadOp::Lbu)))
            (Lhu "lhu" I 0x03 5 _ (Load (LoadOp::Lhu)))
            (Sb "sb" S 0x23 0 _ (Store (Width::One)))
            (Sh "sh" S 0x23 1 _ (Store (Width::Two)))
            (Sw "sw" S 0x23 2 _ (Store (Width::Four)))
            (Addi "addi" I 0x13 0 _ (OpImm (ImmOp::Addi)))
            (Slti "slti" I 0x13 2 _ (OpImm (ImmOp::Slti)))
            (Sltiu "sltiu" I 0x13 3 _ (OpImm (ImmOp::Sltiu)))
            (Xori "xori" I 0x13 4 _ (OpImm (ImmOp::Xori)))
            (Ori "ori" I 0x13 6 _ (OpImm (ImmOp::Ori)))
            (Andi "andi" I 0x13 7 _ (OpImm (ImmOp::Andi)))
            (Slli "slli" Amount 0x13 1 0x00 (Shift (ShiftOp::Slli)))
            (Srli "srli" Amount 0x13 5 0x00 (Shift (ShiftOp::Srli)))
            (Srai "srai" Amount 0x13 5 0x20 (Shift (ShiftOp::Srai)))
            (Add "add" R 0x33 0 0x00 (Op (AluOp::Add)))
            (Sll "sll" R 0x33 1 0x00 (Op (AluOp::Sll)))
            (Slt "slt" R 0x33 2 0x00 (Op (AluOp::Slt)))
            (Sltu "sltu" R 0x33 3 0x00 (Op (AluOp::Sltu)))
            (Xor "xor" R 0x33 4 0x00 (Op (AluOp::Xor)))
            (Srl "srl" R 0x33 5 0x00 (Op (AluOp::Srl)))
            (Or "or" R 0x33 6 0x00 (Op (AluOp::Or)))
            (And "and" R 0x33 7 0x00 (Op (AluOp::And)))
            (Sub "sub" R 0x33 0 0x20 (Op (AluOp::Sub)))
            (Sra "sra" R 0x33 5 0x20 (Op (AluOp::Sra)))
            (Mul "mul" R 0x33 0 0x01 (Op (AluOp::Mul)))
            (Mulh "mulh" R 0x33 1 0x01 (Op (AluOp::Mulh)))
            (Mulhsu "mulhsu" R 0x33 2 0x01 (Op (AluOp::Mulhsu)))
            (Mulhu "mulhu" R 0x33 3 0x01 (Op (AluOp::Mulhu)))
            (Div "div" R 0x33 4 0x01 (Op (AluOp::Div)))
            (Divu "divu" R 0x33 5 0x01 (Op (AluOp::Divu)))
            (Rem "rem" R 0x33 6 0x01 (Op (AluOp::Rem)))
            (Remu "remu" R 0x33 7 0x01 (Op (AluOp::Remu)))
            (Fence "fence" Number 0x0f 0 _ (Fence))
            (FenceI "fence.i" Number 0x0f 1 _ (FenceI))
            (Csrrw "csrrw" Number 0x73 1 _ (Csr (CsrOp::Write)))
            (Csrrs "csrrs" Number 0x73 2 _ (Csr (CsrOp::Set)))
            (Csrrc "csrrc" Number 0x73 3 _ (Csr (CsrOp::Clear)))
            (Csrrwi "csrrwi" Number 0x73 5 _ (CsrImm (CsrOp::Write)))
            (Csrrsi "csrrsi" Number 0x73 6 _ (CsrImm (CsrOp::Set)))
            (Csrrci "csrrci" Number 0x73 7 _ (CsrImm (CsrOp::Clear)))
            (Ecall "ecall" Whole 0x00000073 _ _ (Ecall))
            (Ebreak "ebreak" Whole 0x00100073 _ _ (Ebreak))
            (Mret "mret" Whole 0x30200073 _ _ (Mret))
            (Wfi "wfi" Whole 0x10500073 _ _ (Wfi))
        }
    };
}

/// Expands to the mnemonic and the codes of an operation.
macro_rules! row_of {
    (($operation:ident) $(($name:ident $mnemonic:tt $format:ident $opcode:tt $funct3:tt $funct7:tt $kind:tt))*) => {
        match $operation {
            $(Operation::$name => ($mnemonic, Codes {
                format: Format::$format,
                opcode: $opcode,
                funct3: code!($funct3),
                funct7: code!($funct7),
            }),)*
        }
    };
}

/// Expands to a code, or to 0 where the format has none.
macro_rules! code {
    (_) => { 0 };
    ($code:tt) => { $code };
}

/// Expands to the operation whose codes a word has.
macro_rules! operation_in {
    (($word:ident) $(($name:ident $mnemonic:tt $format:ident $opcode:tt $funct3:tt $funct7:tt $kind:tt))*) => {
        match ($word % 128, ($word >> 12) % 8, $word >> 25, $word) {
            $(codes!($format $opcode $funct3 $funct7) => Some(Operation::$name),)*
            _ => None,
        }
    };
}

/// Expands to the pattern of the codes of a word, and the word.
macro_rules! codes {
    (Whole $word:tt _ _) => { (_, _, _, $word) };
    ($format:ident $opcode:tt $funct3:tt $funct7:tt) => { ($opcode, $funct3, $funct7, _) };
}

/// Expands to the kind of an instruction with these fields.
macro_rules! kind_by_operation {
    (($fields:ident) $(($name:ident $mnemonic:tt $format:ident $opcode:tt $funct3:tt $funct7:tt $kind:tt))*) => {
        match $fields.operation {
            $(Operation::$name => made!($fields $kind),)*
        }
    };
}

/// Expands to the operation of a kind.
macro_rules! operation_by_kind {
    (($given:ident) $(($name:ident $mnemonic:tt $format:ident $opcode:tt $funct3:tt $funct7:tt $kind:tt))*) => {
        match $given {
            $(any!($kind) => Operation::$name,)*
        }
    };
}

impl Operation {
    /// Returns the mnemonic.
    pub(crate) fn mnemonic(self) -> &'static str
        ensures { result.now ≡ mnemonic self }
    {
        self.row().0
    }

    /// Returns the format of the operation's words, with its codes.
    #[inline(always)]
    pub(crate) fn codes(self) -> Codes
        ensures { result ≡ codes_of (row self).1 }
    {
        self.row().1
    }

    /// Returns the mnemonic and the codes, of which those that the format doesn't have are 0.
    #[inline(always)]
    #[tactic(auto, unfolding(crate::specs::Table::mnemonic))]
    fn row(self) -> (&'static str, Codes)
        ensures mnemonic { result.0.now ≡ mnemonic self }
        ensures codes { result.1 ≡ codes_of (row self).1 }
    {
        table!(row_of(self))
    }

    /// Returns the operation whose codes a word has, or `None` if no operation has them.
    pub(crate) fn in_word(word: u32) -> Option<Operation>
        ensures { HasOperation word result }
    {
        table!(operation_in(word))
    }

    /// Returns the operation of a kind. Where the kind is known, no match is left.
    #[inline(always)]
    pub(crate) fn of(kind: Kind) -> Operation
        ensures { result ≡ kinds.operation_of kind }
    {
        table!(operation_by_kind(kind))
    }
}

/// Returns the kind that an instruction with these fields is. Where the operation is known, no match is left.
#[inline(always)]
#[tactic(auto, unfolding(crate::specs::Fields::kind_of))]
pub(crate) fn kind_of(fields: &Fields) -> Kind
    requires { IsInRange (spec.kind_of fields.now) }
    ensures { result ≡ spec.kind_of fields.now }
{
    table!(kind_by_operation(fields))
}
