//! Interrupt sources.
ghost use Rattle.std.specs.Prelude.{◌≡◌, ◌<◌, ◌↔◌, IsSome, IfSome};

use std::marker::Model;

/// An interrupt source, seen as its number, 1 to 31. The number 0 stands for no source.
#[derive(Clone, Copy, PartialEq, Eq, Debug)]
pub struct Source {
    number: u8,
}

impl Model for Source {
    ghost use Rattle.std.specs.Prelude.{ℕ, ◌<◌};

    ghost Value = { ℕ };

    ghost view = { λ s. s.number };

    ghost invariant = { λ s. (0 < s.number) × (s.number < 32) };

    ghost inverse = { λ n. record { number = n } };
}

impl Source {
    /// Returns the source with number `number`, or `None` unless that is 1 to 31.
    pub fn new(number: u8) -> Option<Source>
        ensures valid { IsSome result ↔ ((0 < number) × (number < 32)) }
        ensures value { IfSome result (λ s. s ≡ number) }
    {
        if number > 0 && number < 32 {
            Some(Source::of(number))
        } else {
            None
        }
    }

    /// Returns the source with a number from 1 to 31.
    pub(crate) fn of(number: u8) -> Source
        requires { (0 < number) × (number < 32) }
        ensures { result ≡ number }
    {
        Source { number }
    }

    /// Returns the source's number.
    pub fn number(self) -> u8
        ensures value { result ≡ self }
        ensures range { (0 < result) × (result < 32) }
    {
        self.number
    }
}
