//! Why bytes were not read as the text of a version. Each fault has a number and a word, which the
//! interface shows.
use lab_forms_texts::{Fault, RefusalKind};
use std::fmt;
use thiserror::Error;

/// The bytes aren't the text of a version. The refusal is printed as its word.
#[derive(Clone, Copy, Debug, PartialEq, Eq, Error)]
pub struct BadText;

impl RefusalKind for BadText {
    ghost use Rattle.lab_seal.specs.Faults.{text_entry};

    ghost listed = { λ _. text_entry };

    fn entry(&self) -> (u32, &'static str) {
        (11, "bad_text")
    }
}

impl fmt::Display for BadText {
    ghost use Rattle.std.specs.Prelude.{Some};
    ghost use Rattle.lab_seal.specs.Faults.{text_entry};

    ghost output = { λ _. Some text_entry.word };

    fn fmt<W: fmt::Write>(&self, f: &mut fmt::Formatter<W>) -> fmt::Result {
        f.write_str(self.word())
    }
}

/// Why bytes were not read as the text of a version. Memory is the fault only if they are such a
/// text.
pub type TextFault = Fault<BadText>;
