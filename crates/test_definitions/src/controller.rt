//! The interrupt controller: what its registers and its line show after lines, ticks, stores and loads.
ghost use Rattle.std.specs.Prelude.{◌≡◌, ◌∷◌, [], true};
ghost use Rattle.std.specs.List.{list_all};
ghost use Rattle.rv_plic.specs.Gateways.{plic_at_reset};
ghost use Rattle.test_definitions.specs.Support.Controller.{shows_all};

/// What is done to the controller, or asked of it.
#[derive(Clone, Copy)]
pub enum Act {
    /// The line of a source gets a level.
    Line,
    /// Gateways forward their requests.
    Tick,
    /// A word is stored at an offset.
    Store,
    /// A load at an offset gives a word.
    Load,
    /// The line into the hart has a level.
    External,
}

// A table is what happens to a controller at reset: an act with a source or an offset, or 0, and a level or a word
// (PLIC Specification 1.0). Offset 4 s is the priority of source s, 0x1000 has the pending bits, 0x2000 the enabled
// ones, 0x200000 the threshold, and 0x200004 is claim and completion.

/// Of sources with equal priorities the lowest is claimed first ("Interrupt Priorities"). A claim takes the pending
/// bit, and the line falls with the last ("Interrupt Claim Process").
pub const EQUAL: [(Act, u32, u32); 16] = [
    (Act::Store, 12, 2),
    (Act::Store, 20, 2),
    (Act::Store, 0x2000, 0x28),
    (Act::Line, 5, 1),
    (Act::Line, 3, 1),
    (Act::External, 0, 0),
    (Act::Tick, 0, 0),
    (Act::Load, 0x1000, 0x28),
    (Act::External, 0, 1),
    (Act::Load, 0x200004, 3),
    (Act::Load, 0x1000, 0x20),
    (Act::External, 0, 1),
    (Act::Load, 0x200004, 5),
    (Act::Load, 0x1000, 0),
    (Act::Load, 0x200004, 0),
    (Act::External, 0, 0),
];

/// A gateway forwards no request before the one before is completed ("Interrupt Gateways"). A completion of a source
/// that isn't enabled is ignored ("Interrupt Completion"). A line that falls leaves a pending request.
pub const COMPLETE: [(Act, u32, u32); 14] = [
    (Act::Store, 12, 1),
    (Act::Store, 0x2000, 8),
    (Act::Line, 3, 1),
    (Act::Tick, 0, 0),
    (Act::Load, 0x200004, 3),
    (Act::Tick, 0, 0),
    (Act::Load, 0x1000, 0),
    (Act::Store, 0x200004, 4),
    (Act::Tick, 0, 0),
    (Act::Load, 0x1000, 0),
    (Act::Store, 0x200004, 3),
    (Act::Tick, 0, 0),
    (Act::Line, 3, 0),
    (Act::Load, 0x1000, 8),
];

/// Each rise of source 24 is one request: two that come while the first is outstanding follow one by one.
pub const EDGES: [(Act, u32, u32); 20] = [
    (Act::Store, 96, 7),
    (Act::Store, 0x2000, 0x100_0000),
    (Act::Line, 24, 1),
    (Act::Tick, 0, 0),
    (Act::Line, 24, 0),
    (Act::Line, 24, 1),
    (Act::Line, 24, 0),
    (Act::Line, 24, 1),
    (Act::Load, 0x200004, 24),
    (Act::Tick, 0, 0),
    (Act::Load, 0x200004, 0),
    (Act::Store, 0x200004, 24),
    (Act::Tick, 0, 0),
    (Act::Load, 0x200004, 24),
    (Act::Store, 0x200004, 24),
    (Act::Tick, 0, 0),
    (Act::Load, 0x200004, 24),
    (Act::Store, 0x200004, 24),
    (Act::Tick, 0, 0),
    (Act::Load, 0x200004, 0),
];

/// Nested interrupts: source 9 has a higher priority than source 1, whose handler raises the threshold to its own, so
/// that only source 9 notifies ("Priority Thresholds"). Priorities have three bits.
pub const NESTED: [(Act, u32, u32); 20] = [
    (Act::Store, 4, 2),
    (Act::Store, 36, 13),
    (Act::Load, 36, 5),
    (Act::Store, 0x2000, 0x202),
    (Act::Line, 1, 1),
    (Act::Tick, 0, 0),
    (Act::External, 0, 1),
    (Act::Store, 0x200000, 2),
    (Act::External, 0, 0),
    (Act::Load, 0x200004, 1),
    (Act::Line, 9, 1),
    (Act::Tick, 0, 0),
    (Act::External, 0, 1),
    (Act::Load, 0x200004, 9),
    (Act::Line, 9, 0),
    (Act::Store, 0x200004, 9),
    (Act::Line, 1, 0),
    (Act::Store, 0x200004, 1),
    (Act::Tick, 0, 0),
    (Act::Load, 0x1000, 0),
];

/// Law: the definition of the interrupt controller shows what each table says.
#[tactic(auto, using(crate::proofs::Lists::each_table))]
pub fn controllers_are_defined()
    ensures { list_all (shows_all plic_at_reset) (EQUAL ∷ COMPLETE ∷ EDGES ∷ NESTED ∷ []) ≡ true }
{}
