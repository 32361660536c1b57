//! The operations: one for each mnemonic, those of each kind, and their values.
ghost use Rattle.std.specs.Prelude.{◌≡◌, ◌%◌, ◌==◌};
ghost use Rattle.rv_isa.specs.Alu.{alu_value, load_of, imm_alu_op, shift_alu_op};
ghost use Rattle.rv_isa.specs.Support.Letters.{beginning_with};
ghost use Rattle.rv_isa.specs.Width.{bytes_of};

use crate::arith::{div, mulh, mulhsu, rem};

/// The operation of an instruction: one for each mnemonic.
///
/// `Kind` says what each does, and with which operands. RISC-V Unprivileged ISA 20191213, chapter 24;
/// Privileged Architecture 20211203, sections 3.3.2 and 3.3.3.
#[derive(Clone, Copy)]
pub enum Operation {
    Lui,
    Auipc,
    Jal,
    Jalr,
    Beq,
    Bne,
    Blt,
    Bge,
    Bltu,
    Bgeu,
    Lb,
    Lh,
    Lw,
    Lbu,
    Lhu,
    Sb,
    Sh,
    Sw,
    Addi,
    Slti,
    Sltiu,
    Xori,
    Ori,
    Andi,
    Slli,
    Srli,
    Srai,
    Add,
    Sll,
    Slt,
    Sltu,
    Xor,
    Srl,
    Or,
    And,
    Sub,
    Sra,
    Mul,
    Mulh,
    Mulhsu,
    Mulhu,
    Div,
    Divu,
    Rem,
    Remu,
    Fence,
    FenceI,
    Csrrw,
    Csrrs,
    Csrrc,
    Csrrwi,
    Csrrsi,
    Csrrci,
    Ecall,
    Ebreak,
    Mret,
    Wfi,
}

/// Returns the operations whose mnemonics begin with a letter.
#[tactic(auto, unfolding(crate::specs::Support::Letters::beginning_with, crate::specs::Support::Kinds::operations, crate::specs::Table::mnemonic))]
pub(crate) fn beginning_with(letter: u8) -> &'static [Operation]
    ensures { result.now ≡ beginning_with letter }
{
    use Operation::*;
    match letter {
        b'a' => &[Auipc, Addi, Andi, Add, And],
        b'b' => &[Beq, Bne, Blt, Bge, Bltu, Bgeu],
        b'c' => &[Csrrw, Csrrs, Csrrc, Csrrwi, Csrrsi, Csrrci],
        b'd' => &[Div, Divu],
        b'e' => &[Ecall, Ebreak],
        b'f' => &[Fence, FenceI],
        b'j' => &[Jal, Jalr],
        b'l' => &[Lui, Lb, Lh, Lw, Lbu, Lhu],
        b'm' => &[Mul, Mulh, Mulhsu, Mulhu, Mret],
        b'o' => &[Ori, Or],
        b'r' => &[Rem, Remu],
        b's' => &[
            Sb, Sh, Sw, Slti, Sltiu, Slli, Srli, Srai, Sll, Slt, Sltu, Srl, Sub, Sra,
        ],
        b'w' => &[Wfi],
        b'x' => &[Xori, Xor],
        _ => &[],
    }
}

/// The condition of a branch on its two registers; `branch_taken` evaluates it.
///
/// RISC-V Unprivileged ISA 20191213, section 2.5.
#[derive(Clone, Copy)]
pub enum Cond {
    /// BEQ: equal.
    Eq,
    /// BNE: not equal.
    Ne,
    /// BLT: the first is less, as signed numbers.
    Lt,
    /// BGE: the first is not less, as signed numbers.
    Ge,
    /// BLTU: the first is less, as unsigned numbers.
    Ltu,
    /// BGEU: the first is not less, as unsigned numbers.
    Geu,
}

/// The operation of a load: how many bytes it reads, and how they are extended to a word.
///
/// RISC-V Unprivileged ISA 20191213, section 2.6.
#[derive(Clone, Copy)]
pub enum LoadOp {
    /// LB: one byte, sign-extended.
    Lb,
    /// LH: two bytes, sign-extended.
    Lh,
    /// LW: four bytes.
    Lw,
    /// LBU: one byte, zero-extended.
    Lbu,
    /// LHU: two bytes, zero-extended.
    Lhu,
}

impl LoadOp {
    /// Returns how many bytes the load reads. Section 2.6.
    pub fn width(self) -> Width
        ensures { result ≡ (load_of self).0 }
    {
        match self {
            LoadOp::Lb | LoadOp::Lbu => Width::One,
            LoadOp::Lh | LoadOp::Lhu => Width::Two,
            LoadOp::Lw => Width::Four,
        }
    }
}

/// The width of a load or a store in bytes. The operation of a store is its width: SB, SH, SW.
///
/// RISC-V Unprivileged ISA 20191213, section 2.6.
#[derive(Clone, Copy, PartialEq, Eq, Debug)]
pub enum Width {
    /// A byte.
    One,
    /// A half word.
    Two,
    /// A word.
    Four,
}

impl Width {
    /// Returns the number of bytes: 1, 2 or 4.
    pub fn bytes(self) -> u32
        ensures { result ≡ bytes_of self }
    {
        match self {
            Width::One => 1,
            Width::Two => 2,
            Width::Four => 4,
        }
    }

    /// Whether an access at a byte address is naturally aligned: the address is a multiple of the width.
    /// Section 2.6.
    pub fn is_aligned(self, addr: u32) -> bool
        ensures { result ≡ (addr % bytes_of self == 0) }
    {
        match self {
            Width::One => true,
            Width::Two => addr % 2 == 0,
            Width::Four => addr % 4 == 0,
        }
    }
}

/// An operation on a register and an immediate.
///
/// RISC-V Unprivileged ISA 20191213, section 2.4.
#[derive(Clone, Copy)]
pub enum ImmOp {
    /// ADDI: the sum.
    Addi,
    /// SLTI: 1 if the register is less, as signed numbers, else 0.
    Slti,
    /// SLTIU: the same as unsigned numbers; the immediate is sign-extended first.
    Sltiu,
    /// XORI: bitwise exclusive or.
    Xori,
    /// ORI: bitwise or.
    Ori,
    /// ANDI: bitwise and.
    Andi,
}

impl ImmOp {
    /// Returns the operation on the register and the immediate, which is a word modulo 2^32. Section 2.4.
    pub fn alu_op(self) -> AluOp
        ensures { result ≡ imm_alu_op self }
    {
        match self {
            ImmOp::Addi => AluOp::Add,
            ImmOp::Slti => AluOp::Slt,
            ImmOp::Sltiu => AluOp::Sltu,
            ImmOp::Xori => AluOp::Xor,
            ImmOp::Ori => AluOp::Or,
            ImmOp::Andi => AluOp::And,
        }
    }
}

/// The change of a control register by an instruction.
///
/// RISC-V Unprivileged ISA 20191213, section 9.1.
#[derive(Clone, Copy)]
pub enum CsrOp {
    /// CSRRW, CSRRWI: the source is written.
    Write,
    /// CSRRS, CSRRSI: the bits of the source are set.
    Set,
    /// CSRRC, CSRRCI: the bits of the source are cleared.
    Clear,
}

/// A shift of a register by an amount in the instruction.
///
/// RISC-V Unprivileged ISA 20191213, section 2.4.
#[derive(Clone, Copy)]
pub enum ShiftOp {
    /// SLLI: to the left.
    Slli,
    /// SRLI: to the right, with zeros shifted in.
    Srli,
    /// SRAI: to the right, with copies of the sign shifted in.
    Srai,
}

impl ShiftOp {
    /// Returns the operation on the register and the amount as a word. Section 2.4.
    pub fn alu_op(self) -> AluOp
        ensures { result ≡ shift_alu_op self }
    {
        match self {
            ShiftOp::Slli => AluOp::Sll,
            ShiftOp::Srli => AluOp::Srl,
            ShiftOp::Srai => AluOp::Sra,
        }
    }
}

/// An operation on two words; `alu` evaluates it.
///
/// RISC-V Unprivileged ISA 20191213, section 2.4, and from `Mul` on chapter 7.
#[derive(Clone, Copy, PartialEq, Eq, Debug)]
pub enum AluOp {
    /// ADD: the sum.
    Add,
    /// SLL: the first to the left, by the low five bits of the second.
    Sll,
    /// SLT: 1 if the first is less, as signed numbers, else 0.
    Slt,
    /// SLTU: 1 if the first is less, as unsigned numbers, else 0.
    Sltu,
    /// XOR: bitwise exclusive or.
    Xor,
    /// SRL: the first to the right, by the low five bits of the second, with zeros shifted in.
    Srl,
    /// OR: bitwise or.
    Or,
    /// AND: bitwise and.
    And,
    /// SUB: the difference.
    Sub,
    /// SRA: the first to the right, by the low five bits of the second, with copies of the sign shifted in.
    Sra,
    /// MUL: the low word of the product.
    Mul,
    /// MULH: the high word of the product of two signed numbers.
    Mulh,
    /// MULHSU: the high word of the product of a signed and an unsigned number.
    Mulhsu,
    /// MULHU: the high word of the product of two unsigned numbers.
    Mulhu,
    /// DIV: the quotient of signed numbers, rounded towards zero; all ones if the divisor is zero.
    Div,
    /// DIVU: the quotient of unsigned numbers, rounded down; all ones if the divisor is zero.
    Divu,
    /// REM: the remainder of signed numbers, with the dividend's sign; the dividend if the divisor is zero.
    Rem,
    /// REMU: the remainder of unsigned numbers; the dividend if the divisor is zero.
    Remu,
}

/// Returns the value of an operation on two words, modulo 2^32.
///
/// Shifts use the low five bits of `b`. A quotient is rounded towards zero, and a remainder has the sign of
/// the dividend. For a divisor of zero the quotient is all ones and the remainder is the dividend; for -2^31
/// by -1 they are -2^31 and 0. RISC-V Unprivileged ISA 20191213, section 2.4 and chapter 7.
#[inline(always)]
#[tactic(auto, using(crate::proofs::Bits::bit_sums), unfolding(crate::specs::Alu::alu_value))]
pub fn alu(op: AluOp, a: u32, b: u32) -> u32
    ensures { result ≡ alu_value op a b }
{
    match op {
        AluOp::Add => a.wrapping_add(b),
        AluOp::Sub => a.wrapping_sub(b),
        AluOp::Sll => a << (b % 32),
        AluOp::Slt => (a.cast_signed() < b.cast_signed()) as u32,
        AluOp::Sltu => (a < b) as u32,
        AluOp::Xor => a ^ b,
        AluOp::Srl => a >> (b % 32),
        AluOp::Sra => (a.cast_signed() >> (b % 32)).cast_unsigned(),
        AluOp::Or => a | b,
        AluOp::And => a & b,
        AluOp::Mul => a.wrapping_mul(b),
        AluOp::Mulh => mulh(a, b),
        AluOp::Mulhsu => mulhsu(a, b),
        AluOp::Mulhu => ((a as u64 * b as u64) >> 32) as u32,
        AluOp::Div => div(a, b),
        AluOp::Divu => a.checked_div(b).unwrap_or(u32::MAX),
        AluOp::Rem => rem(a, b),
        AluOp::Remu => a.checked_rem(b).unwrap_or(a),
    }
}
