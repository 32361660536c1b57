//! The rows of the interrupt controller.
use rv_plic::{Plic, Source};
use test_definitions::controller::{Act, COMPLETE, EDGES, EQUAL, NESTED};

/// Does what a row says, and returns what it asks for.
fn act(plic: &mut Plic, act: Act, at: u32, value: u32) -> u32 {
    match act {
        Act::Line => {
            if let Some(source) = Source::new((at % 32) as u8) {
                plic.set_line(source, value == 1);
            }
            value
        }
        Act::Tick => {
            plic.forward();
            value
        }
        Act::Store => {
            plic.store(at % 0x4000000 / 4 * 4, value);
            value
        }
        Act::Load => plic.load(at % 0x4000000 / 4 * 4),
        Act::External => plic.external() as u32,
    }
}

/// Whether a controller shows what each row says.
fn shows_all(rows: &[(Act, u32, u32)]) -> bool {
    let mut plic = Plic::new();
    let mut shows = true;
    for &(does, at, value) in rows.iter() {
        shows = act(&mut plic, does, at, value) == value && shows;
    }
    shows
}

#[test]
fn controllers(rt: HostRuntime) {
    let tables = [
        EQUAL.as_slice(),
        COMPLETE.as_slice(),
        EDGES.as_slice(),
        NESTED.as_slice(),
    ];
    for rows in tables {
        assert!(rt; shows_all(rows));
    }
}
