//! The rows of the timer.
use crate::checks::check_at;
use rv_mmio::Timer;
use test_definitions::timer::TIMES;

/// Returns what a load gives after these stores and ticks, and whether the line is high.
fn found(stores: [(u32, u32); 3], ticks: u8, off: u32) -> Option<(u32, bool)> {
    let mut timer = Timer::new();
    for (off, word) in stores {
        timer.store(off, word)?;
    }
    for _ in 0..ticks {
        timer.tick();
    }
    Some((timer.load(off)?, timer.due()))
}

#[test]
fn times(rt: HostRuntime) {
    for &(stores, ticks, off, word, due) in TIMES.iter() {
        check_at(&rt, found(stores, ticks, off) == Some((word, due)), off);
    }
}
