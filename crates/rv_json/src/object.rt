//! Objects by their members.
ghost use Rattle.std.specs.Prelude.{◌≡◌, List, ℕ, OnOk, codes, min};
ghost use Rattle.serde_json.specs.Data.{Members, member, no_members, object, string};
ghost use Rattle.serde_json.specs.Events.{members_len};
ghost use Rattle.rv_json.specs.Support.Sends.{Sends, SendsAll};
ghost use Rattle.rv_json.specs.Support.Labels.{labels};

use crate::names::Names;
use crate::sent::ToJson;
use serde::Serializer;

/// Members of an object.
pub(crate) trait Members {
    /// Their data, by the labels of the source.
    ghost members: { List (List ℕ × ℕ) → Self → Members };

    /// Returns how many they are, whatever the labels.
    fn count(&self) -> usize
        ensures { (ls : List (List ℕ × ℕ)) → result ≡ min (members_len (members ls self.now)) 18446744073709551615 };

    /// Sends them, and the end of the object.
    fn send_all<S: Serializer>(&self, names: &Names<'_>, out: &mut S) -> Result<(), S::Error>
        ensures { OnOk result
            (SendsAll (members (labels names.now) self.now) (S.written out.old) (S.written out.new)) };
}

/// No member.
#[derive(Clone, Copy)]
pub(crate) struct End;

impl Members for End {
    ghost members = { λ _ _. no_members };

    fn count(&self) -> usize {
        0
    }

    #[tactic(auto, unfolding(crate::specs::Support::Sends::SendsAll))]
    fn send_all<S: Serializer>(&self, _: &Names<'_>, out: &mut S) -> Result<(), S::Error> {
        out.end_map()
    }
}

/// A member, and those after it.
#[derive(Clone, Copy)]
pub(crate) struct Member<'a, T, R> {
    pub(crate) name: &'a str,
    pub(crate) value: &'a T,
    pub(crate) rest: R,
}

impl<T: ToJson, R: Members> Members for Member<'_, T, R> {
    ghost members = { λ ls m. member m.name.now (T.json ls m.value.now) (R.members ls m.rest) };

    fn count(&self) -> usize {
        self.rest.count().saturating_add(1)
    }

    #[tactic(auto, using(crate::proofs::Lists::member_sent))]
    fn send_all<S: Serializer>(&self, names: &Names<'_>, out: &mut S) -> Result<(), S::Error> {
        out.key(self.name)?;
        self.value.send(names, out)?;
        self.rest.send_all(names, out)
    }
}

/// An object of members.
#[derive(Clone, Copy)]
pub(crate) struct Object<M>(pub(crate) M);

impl<M: Members> ToJson for Object<M> {
    ghost json = { λ ls o. object (M.members ls o.0) };

    #[tactic(auto, unfolding(crate::specs::Support::Sends::Sends, crate::specs::Support::Sends::SendsAll))]
    fn send<S: Serializer>(&self, names: &Names<'_>, out: &mut S) -> Result<(), S::Error> {
        let count = self.0.count();
        if count == usize::MAX {
            // There may be more than a number can say. No object of an answer is such a one.
            return Err(out.custom("too many members"));
        }
        out.begin_map(Some(count))?;
        self.0.send_all(names, out)
    }
}

/// An object: of the fields of a value by their names, or of what variables refer to where `_` stands in its place, and
/// of other values as `name = value`.
macro_rules! object {
    (@value _, $variable:ident) => {
        *$variable
    };
    (@value $it:tt, $field:ident) => {
        $it.$field
    };
    (@value $it:tt, $field:ident, $value:expr) => {
        $value
    };
    (@members $it:tt) => {
        $crate::object::End
    };
    (@members $it:tt, $field:ident $(= $value:expr)? $(, $names:ident $(= $values:expr)?)*) => {
        $crate::object::Member {
            name: stringify!($field),
            value: &object!(@value $it, $field $(, $value)?),
            rest: object!(@members $it $(, $names $(= $values)?)*),
        }
    };
    ($it:tt: $($members:tt)+) => {
        $crate::object::Object(object!(@members $it, $($members)+))
    };
}

pub(crate) use object;

/// Sends an object, of which `object!` tells the members.
macro_rules! send {
    ($names:ident, $out:ident, $($row:tt)+) => {
        $crate::object::object!($($row)+).send($names, $out)
    };
}

pub(crate) use send;

/// Sends an object that has a kind alone.
pub(crate) fn send_kind<S: Serializer>(
    kind: &str,
    names: &Names<'_>,
    out: &mut S,
) -> Result<(), S::Error>
    ensures { OnOk result (Sends (object (member (codes "kind") (string kind.now) no_members))
        (S.written out.old) (S.written out.new)) }
{
    send!(names, out, _: kind = kind)
}

/// Sends an object that has a kind and one other member.
pub(crate) fn send_one<T: ToJson, S: Serializer>(
    kind: &str,
    name: &str,
    value: &T,
    names: &Names<'_>,
    out: &mut S,
) -> Result<(), S::Error>
    ensures { OnOk result (Sends (object (member (codes "kind") (string kind.now)
        (member name.now (T.json (labels names.now) value.now) no_members)))
        (S.written out.old) (S.written out.new)) }
{
    let rest = Member {
        name,
        value,
        rest: End,
    };
    let name = "kind";
    let value = &kind;
    Object(Member { name, value, rest }).send(names, out)
}
