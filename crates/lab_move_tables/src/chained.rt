//! A laboratory of which it is known that its later versions name the digests of the earlier ones.

ghost use Rattle.std.specs.Prelude.{◌≡◌};
ghost use Rattle.lab_move_tables.specs.Chained.{AreChained};

use lab_records_kept::Lab;
use std::marker::Model;

/// A laboratory that was made of rows. Each later version names the digest of the version before it,
/// as it was computed then. A contract sees the laboratory.
pub struct ChainedLab {
    lab: Lab,
}

// `drop` is written out, so that a caller doesn't prove again how each part is dropped.
impl Drop for ChainedLab {
    fn drop(self) {
        let ChainedLab { lab: _ } = self;
    }
}

impl Model for ChainedLab {
    ghost use Rattle.lab_records_kept.specs.declared.labs.Lab.{Lab as WholeLab};
    ghost use Rattle.lab_move_tables.specs.Chained.{AreChained};

    ghost Value = { WholeLab };

    ghost view = { λ chained. chained.lab };

    ghost invariant = { λ chained. AreChained chained.lab };
}

impl ChainedLab {
    /// Keeps the laboratory as such a one.
    pub fn new(lab: Lab) -> ChainedLab
        requires { AreChained lab }
        ensures { result ≡ lab }
    {
        ChainedLab { lab }
    }

    /// The laboratory.
    pub fn lab(&self) -> &Lab
        ensures same { result.now ≡ self.now }
        ensures chained { AreChained result.now }
    {
        &self.lab
    }
}
