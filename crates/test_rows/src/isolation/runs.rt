//! Runs of user code.
use crate::checked::Checked;
use crate::isolation::cases::{Case, End, USER_CODE, check_case};
use rv_board::TrapRecord;
use std::alloc::Global;

/// A source whose user code may do all below 0x80000110, and from there on may only execute.
pub const STORES: &[u8] =
    b"li t0,0x20000041\ncsrw pmpaddr0,t0\nli t0,-1\ncsrw pmpaddr1,t0\nli t0,0x1D1B\ncsrw pmpcfg0,t0\nla t0,user\ncsrw mepc,t0\nli t1,0x8000010F\nmret\nuser: sb t0,0(t1)\nsb t0,1(t1)";

/// The trap of the second store.
const STOPPED: TrapRecord = TrapRecord {
    cause: 7,
    epc: 0x8000_003c,
    tval: 0x8000_0110,
};

/// The bytes around the end of what user code may store to, after the stores.
const STORED: &[(u32, [u8; 2])] = &[(0x8000_010f, [0x38, 0x38]), (0x8000_0110, [0, 0])];

/// A trap ends a run of user code, in which outside events count as events. No event is no change, and none is done before
/// user code is reached.
static RUNS: [Case; 4] = [
    Case {
        events: 5,
        done: 2,
        end: End::Trap(STOPPED),
        steps: 16,
        bytes: STORED,
        ..USER_CODE
    },
    Case {
        byte_first: true,
        events: 4,
        done: 3,
        end: End::Trap(STOPPED),
        steps: 16,
        waiting: 1,
        bytes: STORED,
        ..USER_CODE
    },
    Case {
        end: End::Pc(0x8000_0038),
        steps: 14,
        ..USER_CODE
    },
    Case {
        to_user_code: false,
        events: 1,
        end: End::Pc(0x8000_0000),
        ..USER_CODE
    },
];

/// Checks runs of user code.
pub fn check_runs(alloc: Global) -> Checked<()> {
    for case in RUNS.iter() {
        check_case(alloc, STORES, STORES, case)?;
    }
    Ok(())
}
