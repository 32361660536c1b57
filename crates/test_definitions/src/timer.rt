//! The timer's registers and its time.
ghost use Rattle.std.specs.Prelude.{◌≡◌, true};
ghost use Rattle.std.specs.List.{list_all};
ghost use Rattle.test_definitions.specs.Support.Devices.{is_time};

/// Three stores of words to a timer at reset, at offsets from its first address; a number of ticks; then an offset
/// with the word that a load gives there, and whether the timer's line is high (Privileged Architecture 20211203,
/// sections 3.2.1 and 3.1.9). 0 is msip, 0x4000 and 0x4004 are mtimecmp, 0xbff8 and 0xbffc mtime.
pub const TIMES: [([(u32, u32); 3], u8, u32, u32, bool); 15] = [
    // the time counts ticks, and carries into its high word
    ([(0, 0), (0, 0), (0, 0)], 0, 0xbff8, 0, false),
    ([(0, 0), (0, 0), (0, 0)], 7, 0xbff8, 7, false),
    ([(0, 0), (0, 0), (0xbff8, 0xffff_ffff)], 1, 0xbff8, 0, false),
    ([(0, 0), (0, 0), (0xbff8, 0xffff_ffff)], 1, 0xbffc, 1, false),
    // and wraps around behind the last time, which the compare at reset is
    (
        [(0, 0), (0xbff8, 0xffff_ffff), (0xbffc, 0xffff_ffff)],
        0,
        0xbffc,
        0xffff_ffff,
        true,
    ),
    (
        [(0, 0), (0xbff8, 0xffff_ffff), (0xbffc, 0xffff_ffff)],
        1,
        0xbffc,
        0,
        false,
    ),
    // the compare at reset, and after each of its words was stored
    ([(0, 0), (0, 0), (0, 0)], 0, 0x4004, 0xffff_ffff, false),
    ([(0, 0), (0, 0), (0x4000, 5)], 9, 0x4000, 5, false),
    ([(0, 0), (0x4000, 5), (0x4004, 0)], 4, 0x4004, 0, false),
    ([(0, 0), (0x4000, 5), (0x4004, 0)], 5, 0x4000, 5, true),
    ([(0, 0), (0x4000, 5), (0x4004, 0)], 6, 0xbff8, 6, true),
    ([(0xbffc, 1), (0x4000, 5), (0x4004, 1)], 4, 0xbffc, 1, false),
    ([(0xbffc, 1), (0x4000, 5), (0x4004, 1)], 5, 0xbffc, 1, true),
    // msip keeps one bit
    ([(0, 0), (0, 0), (0, 3)], 0, 0, 1, false),
    ([(0, 0), (0, 3), (0, 2)], 0, 0, 0, false),
];

/// Law: the definition of the timer gives each row of `TIMES`.
#[tactic(auto, using(crate::proofs::Machine::each_time))]
pub fn times_are_defined()
    ensures { list_all is_time TIMES ≡ true }
{}
