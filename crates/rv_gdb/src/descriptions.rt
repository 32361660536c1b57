//! The descriptions of the target that gdb reads: its registers, and where it has memory. Their texts are unspecified.
use itoa::Buffer;
use rv_base::{NoMemory, RAM_BASE, word_digits};
use rv_isa::csr_named;
use std::alloc::Global;

/// The registers x0 to x31 as gdb names them, with the type of what they hold.
const GENERAL: [(&str, &str); 32] = [
    ("zero", "int"),
    ("ra", "code_ptr"),
    ("sp", "data_ptr"),
    ("gp", "data_ptr"),
    ("tp", "data_ptr"),
    ("t0", "int"),
    ("t1", "int"),
    ("t2", "int"),
    ("fp", "data_ptr"),
    ("s1", "int"),
    ("a0", "int"),
    ("a1", "int"),
    ("a2", "int"),
    ("a3", "int"),
    ("a4", "int"),
    ("a5", "int"),
    ("a6", "int"),
    ("a7", "int"),
    ("s2", "int"),
    ("s3", "int"),
    ("s4", "int"),
    ("s5", "int"),
    ("s6", "int"),
    ("s7", "int"),
    ("s8", "int"),
    ("s9", "int"),
    ("s10", "int"),
    ("s11", "int"),
    ("t3", "int"),
    ("t4", "int"),
    ("t5", "int"),
    ("t6", "int"),
];

/// The control registers that gdb shows, with the type of what they hold.
const CONTROL: [(&str, &str); 43] = [
    ("mstatus", "int"),
    ("misa", "int"),
    ("mie", "int"),
    ("mtvec", "code_ptr"),
    ("mcounteren", "int"),
    ("menvcfg", "int"),
    ("mstatush", "int"),
    ("menvcfgh", "int"),
    ("mcountinhibit", "int"),
    ("mscratch", "int"),
    ("mepc", "code_ptr"),
    ("mcause", "int"),
    ("mtval", "data_ptr"),
    ("mip", "int"),
    ("mcycle", "int"),
    ("minstret", "int"),
    ("mcycleh", "int"),
    ("minstreth", "int"),
    ("mvendorid", "int"),
    ("marchid", "int"),
    ("mimpid", "int"),
    ("mhartid", "int"),
    ("mconfigptr", "int"),
    ("pmpcfg0", "int"),
    ("pmpcfg1", "int"),
    ("pmpcfg2", "int"),
    ("pmpcfg3", "int"),
    ("pmpaddr0", "int"),
    ("pmpaddr1", "int"),
    ("pmpaddr2", "int"),
    ("pmpaddr3", "int"),
    ("pmpaddr4", "int"),
    ("pmpaddr5", "int"),
    ("pmpaddr6", "int"),
    ("pmpaddr7", "int"),
    ("pmpaddr8", "int"),
    ("pmpaddr9", "int"),
    ("pmpaddr10", "int"),
    ("pmpaddr11", "int"),
    ("pmpaddr12", "int"),
    ("pmpaddr13", "int"),
    ("pmpaddr14", "int"),
    ("pmpaddr15", "int"),
];

/// The number of the first control register, as gdb counts them.
const FIRST_CONTROL: u64 = 65;

/// The areas of memory that aren't RAM, each with its size: the register that ends a run, the timer, the interrupt
/// controller and the serial port.
const DEVICES: [(u32, u32); 4] = [
    (0x0010_0000, 4),
    (0x0200_0000, 0xc000),
    (0x0c00_0000, 0x400_0000),
    (0x1000_0000, 12),
];

/// Appends a register.
fn append_register(
    out: &mut Vec<u8>,
    name: &str,
    kind: &str,
    number: u64,
    more: &[u8],
) -> Result<(), NoMemory> {
    out.extend_from_slice(b"<reg name=\"")?;
    out.extend_from_slice(name.as_bytes())?;
    out.extend_from_slice(b"\" bitsize=\"32\" type=\"")?;
    out.extend_from_slice(kind.as_bytes())?;
    out.extend_from_slice(b"\" regnum=\"")?;
    let mut buffer = Buffer::new();
    out.extend_from_slice(buffer.format(number).as_bytes())?;
    out.extend_from_slice(b"\"")?;
    out.extend_from_slice(more)?;
    Ok(out.extend_from_slice(b"/>")?)
}

/// Appends the registers x0 to x31.
fn append_general(out: &mut Vec<u8>) -> Result<(), NoMemory> {
    for number in 0..GENERAL.len() {
        let row = &GENERAL[number];
        append_register(out, row.0, row.1, number as u64, b"")?;
    }
    Ok(())
}

/// Appends the control registers.
fn append_control(out: &mut Vec<u8>) -> Result<(), NoMemory> {
    for row in &CONTROL {
        if let Some(csr) = csr_named(row.0.as_bytes()) {
            let number = FIRST_CONTROL + u64::from(csr);
            append_register(
                out,
                row.0,
                row.1,
                number,
                b" save-restore=\"no\" group=\"csr\"",
            )?;
        }
    }
    Ok(())
}

/// Returns the description of the target's registers. It names no operating system: gdb would take one, and step by
/// breakpoints of its own.
///
/// # Errors
///
/// `NoMemory` if memory runs out.
pub fn features(alloc: Global) -> Result<Vec<u8>, NoMemory> {
    let mut out = Vec::new(alloc);
    out.extend_from_slice(
        b"<?xml version=\"1.0\"?><!DOCTYPE target SYSTEM \"gdb-target.dtd\"><target version=\"1.0\">",
    )?;
    out.extend_from_slice(b"<architecture>riscv:rv32</architecture><osabi>none</osabi>")?;
    out.extend_from_slice(b"<feature name=\"org.gnu.gdb.riscv.cpu\">")?;
    append_general(&mut out)?;
    append_register(&mut out, "pc", "code_ptr", 32, b"")?;
    out.extend_from_slice(b"</feature><feature name=\"org.gnu.gdb.riscv.csr\">")?;
    append_control(&mut out)?;
    out.extend_from_slice(b"</feature><feature name=\"org.gnu.gdb.riscv.virtual\">")?;
    append_register(&mut out, "priv", "int", 4161, b" save-restore=\"no\"")?;
    out.extend_from_slice(b"</feature></target>")?;
    Ok(out)
}

/// Appends an area of memory.
fn append_area(out: &mut Vec<u8>, start: u32, size: u32) -> Result<(), NoMemory> {
    out.extend_from_slice(b"<memory type=\"ram\" start=\"0x")?;
    out.extend_from_slice(&word_digits(start))?;
    out.extend_from_slice(b"\" length=\"0x")?;
    out.extend_from_slice(&word_digits(size))?;
    Ok(out.extend_from_slice(b"\"/>")?)
}

/// Returns the description of where a target with this number of pages of RAM has memory.
///
/// # Errors
///
/// `NoMemory` if memory runs out.
pub fn memory_map(alloc: Global, pages: u16) -> Result<Vec<u8>, NoMemory> {
    let mut out = Vec::new(alloc);
    out.extend_from_slice(
        b"<?xml version=\"1.0\"?><!DOCTYPE memory-map PUBLIC \"+//IDN gnu.org//DTD GDB Memory Map V1.0//EN\" ",
    )?;
    out.extend_from_slice(b"\"http://sourceware.org/gdb/gdb-memory-map.dtd\"><memory-map>")?;
    for area in &DEVICES {
        append_area(&mut out, area.0, area.1)?;
    }
    append_area(&mut out, RAM_BASE, 4096 * u32::from(pages))?;
    out.extend_from_slice(b"</memory-map>")?;
    Ok(out)
}
