//! Flaws: what a check of a copy can find. Each flaw has a number and a word, which the interface
//! shows.
ghost use Rattle.std.specs.Prelude.{◌≡◌, Some};
ghost use Rattle.lab_copy_rows.specs.Flaws.{flaw_entry, flaw_row};

use std::fmt;
use thiserror::Error;

/// What is wrong with a copy. Row 1 is the header. Rows are counted as a reader of CSV counts them:
/// an empty line isn't a row, and a line feed between quotes doesn't end a row. A flaw is printed as
/// its word.
#[derive(Clone, Copy, Debug, PartialEq, Eq, Error)]
pub enum Flaw {
    /// No copy can have the row, at any place.
    BadRow(u64),
    /// The digest in the row isn't that of the version.
    Digest(u64),
    /// The seal in the row isn't that of the signature.
    Seal(u64),
    /// The row can't follow the rows before it.
    Order(u64),
    /// The copy ends without its end row.
    NoEnd,
    /// The signatures of the version that begins in the row don't make its state, or their persons
    /// aren't different persons, as they must be.
    OnePerson(u64),
}

impl Flaw {
    fn entry(&self) -> (u32, &'static str)
        ensures number { result.0 ≡ (flaw_entry self.now).number }
        ensures word { result.1.now ≡ (flaw_entry self.now).word }
    {
        match self {
            Flaw::BadRow(_) => (70, "bad_row"),
            Flaw::Digest(_) => (71, "digest"),
            Flaw::Seal(_) => (72, "seal"),
            Flaw::Order(_) => (73, "order"),
            Flaw::NoEnd => (74, "no_end"),
            Flaw::OnePerson(_) => (75, "one_person"),
        }
    }

    /// The number of the flaw.
    pub fn number(&self) -> Option<u32>
        ensures { result ≡ Some (flaw_entry self.now).number }
    {
        Some(self.entry().0)
    }

    /// The word of the flaw.
    pub fn word(&self) -> &'static str
        ensures { result.now ≡ (flaw_entry self.now).word }
    {
        self.entry().1
    }

    /// The row that the flaw names; `None` if the end row is missing.
    pub fn row(&self) -> Option<u64>
        ensures { result ≡ flaw_row self.now }
    {
        match self {
            Flaw::BadRow(row)
            | Flaw::Digest(row)
            | Flaw::Seal(row)
            | Flaw::Order(row)
            | Flaw::OnePerson(row) => Some(*row),
            Flaw::NoEnd => None,
        }
    }
}

impl fmt::Display for Flaw {
    ghost use Rattle.std.specs.Prelude.{Some};
    ghost use Rattle.lab_copy_rows.specs.Flaws.{flaw_entry};

    ghost output = { λ flaw. Some (flaw_entry flaw).word };

    fn fmt<W: fmt::Write>(&self, f: &mut fmt::Formatter<W>) -> fmt::Result {
        f.write_str(self.word())
    }
}
