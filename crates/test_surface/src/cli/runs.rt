//! A source and options of several tests.
use rv_cli::Options;

/// A source that sends `H` and halts.
pub const HELLO: &[u8] =
    b"lui t0,0x10000\nli a0,72\nsw a0,0(t0)\nlui t1,0x100\nli t2,0x5555\nsw t2,0(t1)\n";

/// The options where no word names others.
pub const DEFAULTS: Options = Options {
    steps: 1_000_000,
    pages: 256,
    slots: 1024,
};
