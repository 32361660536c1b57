//! The texts that are cut and changed. Each is accepted as it is.

/// A source that uses each form of the language, and never halts.
pub const SOURCE: &[u8] = b"\
# each form once
        .text
        .section .text.start, \"ax\", @progbits
        .globl start
        .equ SERIAL, 0x10000000
        .set EIGHT, 4+4 // a sum
start:  la t0, handler
        csrw mtvec, t0
        li s0, SERIAL
        li a0, 'H'
        sb a0, (s0)
        lla a1, data
        lw a2, 0(a1)
        lh a3, 4(a1)
        lhu a3, data+4
        lb a4, %lo(data)(x0)
        lbu a4, 7(a1)
        sh a3, 8(a1)
        sw a2, data, t1
        li t2, 3
1:      addi t2, t2, -1
        bnez t2, 1b
        call twice
        jal tail_it
        jal x5, 2f
2:      jalr x0, 4(x5)
        beq a0, a1, 3f
        bne a0, a1, 3f
        blt a0, a1, 3f
        bge a0, a1, 3f
        bltu a0, a1, 3f
        bgeu a0, a1, 3f
        beqz a0, 3f
        blez a0, 3f
        bgez a0, 3f
        bltz a0, 3f
        bgtz a0, 3f
        bgt a0, a1, 3f
        ble a0, a1, 3f
        bgtu a0, a1, 3f
        bleu a0, a1, 3f
3:      lui a5, %hi(data)
        addi a5, a5, %lo(data)
        auipc a6, 1
        slti a0, a1, -2048
        sltiu a0, a1, 2047
        xori a0, a1, 0xff
        ori a0, a1, 0b101
        andi a0, a1, 017
        slli a0, a1, 31
        srli a0, a1, EIGHT
        srai a0, a1, EIGHT-1
        add a0, a1, a2
        sub a0, a1, a2
        sll a0, a1, a2
        slt a0, a1, a2
        sltu a0, a1, a2
        xor a0, a1, a2
        srl a0, a1, a2
        sra a0, a1, a2
        or a0, a1, a2
        and a0, a1, a2
        mul a0, a1, a2
        mulh a0, a1, a2
        mulhsu a0, a1, a2
        mulhu a0, a1, a2
        div a0, a1, a2
        divu a0, a1, a2
        rem a0, a1, a2
        remu a0, a1, a2
        nop
        mv a0, a1
        not a0, a1
        neg a0, a1
        seqz a0, a1
        snez a0, a1
        sltz a0, a1
        sgtz a0, a1
        csrrw a0, mscratch, a1
        csrrs a0, 0x340, a1
        csrrc a0, mscratch, a1
        csrrwi a0, mscratch, 1
        csrrsi a0, mscratch, 2
        csrrci a0, mscratch, 3
        csrr a0, mcycle
        csrs mscratch, a0
        csrc mscratch, a0
        csrwi mscratch, 31
        csrsi mscratch, 1
        csrci mscratch, 1
        fence
        fence rw, o
        fence.i
        wfi
        ecall
        ebreak
        mret
twice:  jr ra
tail_it: tail twice
        jalr ra
        ret
handler: j start
        .align 2
data:   .word 0x80000001, -1, data
        .long EIGHT
        .half 1, -2
        .byte 'a', '\\n', '\\x41', 255
        .ascii \"text\", \"\\\"\\101\"
        .asciz \"with an end\"
        .string \"\\t\"
        .space 5, 0xff
        .zero 2
        .balign 16
        .p2align 3
end:    .size start, .-start
";

/// A source whose loop is interrupted by the timer.
pub const TIMER: &[u8] = b"\
la t0,handler
csrw mtvec,t0
lui t1,0x2004
li t2,14
sw t2,0(t1)
sw zero,4(t1)
li t0,128
csrw mie,t0
csrwi mstatus,8
loop: addi s0,s0,1
j loop
handler: addi s1,s1,1
j .
";

/// A short source, with which the timed list and the commands are run.
pub const SENDER: &[u8] = b"\
        la t0, handler
        csrw mtvec, t0
        lui t1, 0x10000
send:   lw a0, 4(t1)
        sw a0, 0(t1)
        j send
handler: j .
data:   .word 1, data
end:
";

/// A timed list that has each form of a line.
pub const INPUTS: &[u8] = b"\
# bytes, and levels of interrupt sources
0 rx 5a
0 rx 00 ff 7F 41 42 43 44 45 46 47 48 49 4a 4b 4c 4d 4e 4f

1 line 3 1
1\tline 31 0\r
 2 rx 41
0000000070 line 03 0
9999999999 line 1 1
";

/// Each command of the monitor.
pub const COMMANDS: &[u8] = b"\
s
s 3
b 0x8000000c
b handler
c
c 20
d handler
d 0x1
r
p mstatus
p pmpcfg0
m 0x7ffffffe 20
m data 256
i 0x80000000
i end
t
# nothing

help
c 0
q
s
";
