//! The definitions of the language, run: sources with their images, and with their faults.
//!
//! Each table is used twice. A law says that the definition of an assembly gives each row, and its proof computes it.
//! A test of test_surface assembles the same sources. The rows are those of docs/ASSEMBLER.md, and no value that the program printed.
#![tactic(auto)]

ghost use Rattle.std.specs.Prelude.{◌≡◌, true};
ghost use Rattle.std.specs.List.{list_all};
ghost use Rattle.test_language.specs.Support.Sources.{has_fault, has_image};

/// Sources, each with the bytes of its image.
pub const IMAGES: [(&[u8], &[u8]); 12] = [
    // ADDI
    (b"addi x1,x0,5", &[0x93, 0, 0x50, 0]),
    // `li` of a value that no immediate of twelve bits has
    (
        b"li a0,0x12345678",
        &[0x37, 0x55, 0x34, 0x12, 0x13, 5, 0x85, 0x67],
    ),
    // a call of itself: AUIPC and JALR
    (b"x: call x", &[0x97, 0, 0, 0, 0xe7, 0x80, 0, 0]),
    // words, low byte first
    (b".word 1,-1", &[1, 0, 0, 0, 0xff, 0xff, 0xff, 0xff]),
    // a half word
    (b".half 0x1234", &[0x34, 0x12]),
    // a character
    (b".byte 'A',10", &[0x41, 0xa]),
    // strings, each with a byte 0 behind it
    (b".asciz \"ab\",\"c\"", &[0x61, 0x62, 0, 0x63, 0]),
    // bytes of a value
    (b".space 3,0xff", &[0xff, 0xff, 0xff]),
    // padding: bytes 0 up to a multiple of 4, and then words of nop
    (b".byte 1\n.balign 8", &[1, 0, 0, 0, 0x13, 0, 0, 0]),
    // a constant
    (b".equ N,2\nslli a0,a0,N", &[0x13, 0x15, 0x25, 0]),
    // a local label before it
    (b"1: bnez a0,1b # a loop", &[0x63, 0x10, 5, 0]),
    // a marker
    (b".globl _start", &[]),
];

/// Sources, each with the line and the number of its fault.
pub const FAULTS: [(&[u8], u8, u8); 12] = [
    // E1 BadByte
    (b"nop \x01", 1, 1),
    // E3 Syntax: no operand
    (b"addi a0,,1", 1, 3),
    // E3 comes before E4
    (b"foo (", 1, 3),
    // E4 UnknownWord
    (b"foo a0", 1, 4),
    // E5 BadOperands: one is missing
    (b"addi a0,a0", 1, 5),
    // E6 DuplicateSymbol
    (b"x:\nx:", 2, 6),
    // E7 NotConstant: not known at its line
    (b"li a0,x\nx:", 1, 7),
    // E8 Misplaced
    (b".byte 1\nnop", 2, 8),
    // E10 Undefined
    (b"j 1f", 1, 10),
    // E10 comes before a value that is in no range
    (b".byte 300,missing", 1, 10),
    // E11 OutOfRange: twelve bits, signed
    (b"addi a0,a0,2048", 1, 11),
    // E11: a byte
    (b"nop\n.byte 256", 2, 11),
];

/// Law: the definition of an assembly gives each image, and each fault.
#[tactic(auto, using(crate::proofs::Sources::each_image, crate::proofs::Sources::each_fault))]
pub fn sources_are_defined()
    ensures images { list_all has_image IMAGES ≡ true }
    ensures faults { list_all has_fault FAULTS ≡ true }
{}
