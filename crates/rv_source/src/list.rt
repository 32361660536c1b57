//! Lists in enums.
use std::marker::Model;

/// A list in an enum: contracts see its elements.
#[derive(Drop)]
pub struct List<T>(Vec<T>);

impl<T> Model for List<T> {
    ghost use Rattle.std.specs.Prelude.{List};

    ghost Value = { List T };

    ghost view = { λ l. l.0.items };
}

impl<T> List<T> {
    ghost use Rattle.std.specs.Prelude.{◌≡◌};

    /// Makes a list of its elements.
    pub fn of(items: Vec<T>) -> List<T>
        ensures { result ≡ items.items }
    {
        List(items)
    }

    /// Returns the elements, from left to right.
    pub fn as_slice(&self) -> &[T]
        ensures { result.now ≡ self.now }
    {
        self.0.as_slice()
    }
}
