//! Names of registers and control registers.
use crate::checks::check_of;
use rv_isa::{csr_named, reg_named};

/// Names, each with the numbers of its register and of its control register.
static NAMES: [(&str, Option<u8>, Option<u16>); 17] = [
    ("zero", Some(0), None),
    ("fp", Some(8), None),
    ("s0", Some(8), None),
    ("s11", Some(27), None),
    ("a0", Some(10), None),
    ("x31", Some(31), None),
    ("t6", Some(31), None),
    ("mstatus", None, Some(0x300)),
    ("pmpaddr15", None, Some(0x3bf)),
    ("mhpmcounter31h", None, Some(0xb9f)),
    ("mconfigptr", None, Some(0xf15)),
    ("", None, None),
    ("x32", None, None),
    ("x01", None, None),
    ("A0", None, None),
    ("mhpmcounter2", None, None),
    ("cycle", None, None),
];

/// Returns the number of the register with a name.
fn register(name: &str) -> Option<u8> {
    Some(reg_named(name.as_bytes())?.number())
}

/// Returns the number of the control register with a name.
fn control_register(name: &str) -> Option<u16> {
    csr_named(name.as_bytes())
}

#[test]
fn names(rt: HostRuntime) {
    for &(name, register_number, control_number) in NAMES.iter() {
        check_of(&rt, register(name) == register_number, name);
        check_of(&rt, control_register(name) == control_number, name);
    }
}
