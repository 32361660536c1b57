//! Instructions: kinds in range, laid out flat.
use crate::layout::fields_of;
use crate::table::kind_of;
use crate::{Fields, Kind, encode};
use std::fmt;
use std::marker::Model;

/// An instruction: a kind whose fields are in their ranges, seen as that kind.
///
/// It is compared and shown by its word: an instruction has one word (`encode`), and a word at most one
/// instruction (`decode`).
#[derive(Clone, Copy)]
pub struct Instr {
    fields: Fields,
}

impl Model for Instr {
    ghost use Rattle.rv_isa.specs.declared.kind.Kind.{Kind};

    ghost Value = { Kind };

    ghost use Rattle.std.specs.Prelude.{◌≡◌};
    ghost use Rattle.rv_isa.specs.Support.Kinds.{IsInRange};
    ghost use Rattle.rv_isa.specs.Fields.{kind_of};
    ghost use Rattle.rv_isa.specs.Support.Kinds.{fields_of};

    ghost view = { λ i. kind_of i.fields };

    ghost invariant = { λ i. IsInRange (kind_of i.fields) × (fields_of (kind_of i.fields) ≡ i.fields) };

    ghost inverse = { λ k. record { fields = fields_of k } };

    ghost inverse_ok = { λ i h j. record { fields = h.1 j } };
}

impl Instr {
    ghost use Rattle.std.specs.Prelude.{◌≡◌, ◌↔◌, IsSome, IfSome};
    ghost use Rattle.rv_isa.specs.Support.Kinds.{fields_of, IsInRange};
    ghost use Rattle.rv_isa.specs.Fields as spec;

    /// Returns the instruction of a kind, or `None` exactly if a field is out of its range.
    pub fn new(kind: Kind) -> Option<Instr>
        ensures valid { IsSome result ↔ IsInRange kind }
        ensures value { IfSome result (λ i. i ≡ kind) }
    {
        // A copy: for the borrow checker the call moves its argument.
        let tested = kind;
        if tested.is_in_range() {
            Some(Instr::of(kind))
        } else {
            None
        }
    }

    /// Returns the instruction of a kind whose fields are in range.
    #[inline(always)]
    #[tactic(auto, using(crate::proofs::OneLayout::kept))]
    pub fn of(kind: Kind) -> Instr
        requires { IsInRange kind }
        ensures { result ≡ kind }
    {
        Instr {
            fields: fields_of(kind),
        }
    }

    /// Returns the instruction with these fields, of which those that its operation doesn't have are 0.
    #[inline(always)]
    pub(crate) fn laid(fields: Fields) -> Instr
        requires in_range { IsInRange (spec.kind_of fields) }
        requires normal { fields_of (spec.kind_of fields) ≡ fields }
        ensures { result ≡ spec.kind_of fields }
    {
        Instr { fields }
    }

    /// Returns the operation with its operands.
    ///
    /// It is inlined, so that a caller's match on the kind becomes one on the operation.
    #[inline(always)]
    pub fn kind(self) -> Kind
        ensures value { result ≡ self }
        ensures in_range { IsInRange result }
    {
        kind_of(&self.fields)
    }

    /// Returns the fields, which a loop reads where they lie: `kind` copies them.
    pub fn fields(&self) -> &Fields
        ensures kind { spec.kind_of result.now ≡ self.now }
        ensures in_range { IsInRange (spec.kind_of result.now) }
    {
        &self.fields
    }
}

impl PartialEq for Instr {
    ghost use Rattle.std.specs.Prelude.{nat_eq};
    ghost use Rattle.std.specs.Ordering.{on};
    ghost use Rattle.std.specs.Cmp.{nat_eq_equiv, on_per, partial_equiv_from_equiv};
    ghost use Rattle.rv_isa.specs.Support.Kinds.{word};

    ghost eq = { on word nat_eq };

    ghost laws = { on_per word (partial_equiv_from_equiv nat_eq_equiv) };

    fn eq(&self, other: &Instr) -> bool {
        encode(*self) == encode(*other)
    }
}

impl Eq for Instr {
    ghost use Rattle.std.specs.Cmp.{nat_eq_equiv, on_equiv};
    ghost use Rattle.rv_isa.specs.Support.Kinds.{word};

    ghost laws = { on_equiv word nat_eq_equiv };
}

impl fmt::Debug for Instr {
    fn fmt<W: fmt::Write>(&self, f: &mut fmt::Formatter<W>) -> fmt::Result {
        write!(f, "Instr({:#010x})", encode(*self))
    }
}
