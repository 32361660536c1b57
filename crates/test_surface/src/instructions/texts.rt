//! The text of an instruction behind many others.
use rv_isa::{Instr, Kind, write_instr};

/// Appends the text of ECALL, and returns whether there was memory. It has no contract, so that the proof of the test
/// doesn't carry that of `write_instr`.
fn appends_ecall(out: &mut Vec<u8>) -> bool {
    match Instr::new(Kind::Ecall) {
        Some(ecall) => write_instr(ecall, out).is_ok(),
        None => false,
    }
}

#[test]
fn after_100_000_bytes(rt: HostRuntime) {
    let mut out = vec![in rt.alloc(); b'.'; 100_000].expect(&rt, "no memory");
    assert!(rt; appends_ecall(&mut out));
    assert!(rt; out.len() == 100_005 && out.ends_with(b".ecall"));
}
