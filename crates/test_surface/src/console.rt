//! A console that grows to a size that a long run may have.
use rv_base::NoMemory;
use rv_mmio::{Serial, SerialReg};
use std::process::Abort;

/// Sends the low bytes of two million numbers.
fn send(serial: &mut Serial) -> Result<(), NoMemory> {
    for word in 0..2_000_000u32 {
        serial.store(SerialReg::Tx, word)?;
    }
    Ok(())
}

/// Checks the bytes that were sent.
fn check(rt: &impl Abort, sent: &[u8]) {
    assert!(rt; sent.len() == 2_000_000);
    let mut wanted = 0u8;
    for &byte in sent {
        assert!(rt; byte == wanted);
        wanted = wanted.wrapping_add(1);
    }
}

#[test]
fn console_of_two_million_bytes(rt: HostRuntime) {
    let mut serial = Serial::new(rt.alloc()).expect(&rt, "no memory");
    assert!(rt; send(&mut serial).is_ok());
    check(&rt, serial.console());
}
