//! Ordinals: the numbers with which a laboratory counts what it keeps.
ghost use Rattle.std.specs.Prelude.{◌≡◌, ◌+◌, IsTrue};
ghost use Rattle.lab_forms_texts.specs.Ordinals.{is_ordinal, ordinal_of};

use std::marker::Model;

/// The last ordinal.
pub const LAST_ORDINAL: u32 = 1_000_000_000;

/// A number from 1 to 1,000,000,000, for records, versions, sessions and rows of a trail.
///
/// A contract sees it as the number.
#[derive(Clone, Copy, Debug, PartialEq, Eq, PartialOrd, Ord)]
pub struct Ordinal {
    number: u32,
}

impl Model for Ordinal {
    ghost use Rattle.std.specs.Prelude.{ℕ, IsTrue};
    ghost use Rattle.lab_forms_texts.specs.Ordinals.{is_ordinal};

    ghost Value = { ℕ };

    ghost view = { λ ordinal. ordinal.number };

    ghost invariant = { λ ordinal. IsTrue (is_ordinal ordinal.number) };

    ghost inverse = { λ n. record { number = n } };
}

impl Ordinal {
    /// The first ordinal.
    pub const FIRST: Ordinal = Ordinal { number: 1 };

    /// Makes an ordinal of a number, if the number is in its range.
    pub fn new(number: u32) -> Option<Ordinal>
        ensures { result ≡ ordinal_of number }
    {
        if number == 0 || number > LAST_ORDINAL {
            return None;
        }
        Some(Ordinal { number })
    }

    /// Returns the ordinal after the first `count` ordinals, if there is one.
    pub fn after(count: u32) -> Option<Ordinal>
        ensures { result ≡ ordinal_of (count + 1) }
    {
        if count >= LAST_ORDINAL {
            return None;
        }
        Ordinal::new(count + 1)
    }

    /// The number.
    pub fn get(self) -> u32
        ensures value { result ≡ self }
        ensures in_range { IsTrue (is_ordinal self) }
    {
        self.number
    }

    /// Returns the next ordinal, if there is one.
    pub fn next(self) -> Option<Ordinal>
        ensures { result ≡ ordinal_of (self + 1) }
    {
        Ordinal::after(self.number)
    }
}
