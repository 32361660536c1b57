//! The rows of values and branches.
use crate::checks::check_at;
use rv_isa::{alu, branch_taken};
use test_definitions::values::{BRANCHES, VALUES};

#[test]
fn values(rt: HostRuntime) {
    for &(op, a, b, value) in VALUES.iter() {
        check_at(&rt, alu(op, a, b) == value, a);
    }
}

#[test]
fn branches(rt: HostRuntime) {
    for &(cond, a, b, holds) in BRANCHES.iter() {
        check_at(&rt, branch_taken(cond, a, b) == holds, a);
    }
}
