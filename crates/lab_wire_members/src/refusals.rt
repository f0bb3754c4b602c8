//! Why a body is refused. Each refusal has a number and a word, with which the interface reports
//! it.
ghost use Rattle.lab_wire_members.specs.Refusals.{body_entry};

use lab_forms::FormRefusal;
use lab_forms_texts::{Fault, RefusalKind};
use std::fmt;
use thiserror::Error;

/// Why a body names nothing of its kind. A refusal is printed as its word.
#[derive(Clone, Copy, Debug, PartialEq, Eq, Error)]
pub enum BodyRefusal {
    /// The body doesn't have the form that the command needs.
    BadBody,
    /// A name in the body isn't allowed.
    BadName,
    /// The fields make no form, or two of the values have the same key.
    Form(FormRefusal),
}

impl RefusalKind for BodyRefusal {
    ghost listed = { body_entry };

    fn entry(&self) -> (u32, &'static str) {
        match self {
            BodyRefusal::BadBody => (88, "bad_body"),
            BodyRefusal::BadName => (1, "bad_name"),
            BodyRefusal::Form(refusal) => refusal.entry(),
        }
    }
}

impl fmt::Display for BodyRefusal {
    ghost use Rattle.std.specs.Prelude.{Some};
    ghost use Rattle.lab_wire_members.specs.Refusals.{body_entry};

    ghost output = { λ refusal. Some (body_entry refusal).word };

    fn fmt<W: fmt::Write>(&self, f: &mut fmt::Formatter<W>) -> fmt::Result {
        f.write_str(self.word())
    }
}

/// Why a body was not read.
pub type BodyFault = Fault<BodyRefusal>;

impl From<BodyRefusal> for BodyFault {
    ghost use Rattle.std.specs.Prelude.{◌≡◌};
    ghost use Rattle.lab_forms_texts.specs.declared.refusals.Fault.TheVariants.{Refused};

    ghost from_gives = { λ refusal fault. fault ≡ Refused refusal };

    fn from(refusal: BodyRefusal) -> BodyFault {
        BodyFault::Refused(refusal)
    }
}
