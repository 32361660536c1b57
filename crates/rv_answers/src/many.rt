//! Lists in values.
ghost use Rattle.std.specs.Prelude.{◌≡◌, ◌++◌, ◌∷◌, [], OnOk};

use rv_base::NoMemory;
use std::marker::Model;

/// A list in a value: a contract sees its elements.
#[derive(Drop)]
pub struct Many<T> {
    items: Vec<T>,
}

impl<T> Model for Many<T> {
    ghost use Rattle.std.specs.Prelude.{List};
    ghost use Rattle.std.specs.Coded.{codes};

    ghost Value = { List T };

    ghost coded = { Prim.hlevel (codes, T.code) };

    ghost view = { λ m. m.items.items };
}

impl<T> Many<T> {
    ghost use Rattle.std.specs.Prelude.{◌≡◌};

    /// Makes a list of its elements.
    pub fn of(items: Vec<T>) -> Many<T>
        ensures { result ≡ items.items }
    {
        Many { items }
    }

    /// Returns the elements.
    pub fn items(&self) -> &[T]
        ensures { result.now ≡ self.now }
    {
        &self.items
    }
}

/// Appends an element to a list.
pub fn push<T: Copy>(list: &mut Vec<T>, item: T) -> Result<(), NoMemory>
    ensures { OnOk result (list.new.items ≡ list.old.items ++ item ∷ []) }
{
    list.push(item).map_err(|_| NoMemory)
}
