//! Words that no instruction has.
use crate::checks::check_at;
use rv_isa::decode;

/// Words that no instruction has.
static NONE: [u32; 6] = [
    0, 0xffffffff, 0x02029293, 0x00002063, 0x0000b003, 0x30200173,
];

/// Whether a word has no instruction.
fn is_none(word: u32) -> bool {
    decode(word).is_none()
}

#[test]
fn no_instruction(rt: HostRuntime) {
    for &word in NONE.iter() {
        check_at(&rt, is_none(word), word);
    }
}
