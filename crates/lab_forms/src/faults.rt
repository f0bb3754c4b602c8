//! Why a form was not made, or a value was not read. Each refusal has a number and a word, which
//! the interface shows.
use lab_forms_texts::{Fault, RefusalKind};
use std::fmt;
use thiserror::Error;

/// What is wrong with the fields of a form, or with a value.
#[derive(Clone, Copy, Debug, PartialEq, Eq, Error)]
pub enum FormRefusal {
    /// The form has no fields.
    NoFields,
    /// Two fields of the form have the same key.
    KeyTwice,
    /// The form has too many fields.
    TooManyFields,
    /// No form may have the field: its decimals, its bounds, its size or its choices are wrong.
    BadField,
    /// The form has no field of that key.
    NoSuchField,
    /// No value of the field can have the text.
    BadValue,
    /// The unit isn't that of the field.
    WrongUnit,
    /// The amount is below the field's least or above its greatest.
    OutOfRange,
}

impl RefusalKind for FormRefusal {
    ghost use Rattle.lab_forms.specs.Faults.{form_refusal_entry};

    ghost listed = { form_refusal_entry };

    fn entry(&self) -> (u32, &'static str) {
        match self {
            FormRefusal::NoFields => (3, "no_fields"),
            FormRefusal::KeyTwice => (4, "key_twice"),
            FormRefusal::TooManyFields => (5, "too_many_fields"),
            FormRefusal::BadField => (6, "bad_field"),
            FormRefusal::NoSuchField => (7, "no_such_field"),
            FormRefusal::BadValue => (8, "bad_value"),
            FormRefusal::WrongUnit => (9, "wrong_unit"),
            FormRefusal::OutOfRange => (10, "out_of_range"),
        }
    }
}

impl fmt::Display for FormRefusal {
    ghost use Rattle.std.specs.Prelude.{Some};
    ghost use Rattle.lab_forms.specs.Faults.{form_refusal_entry};

    ghost output = { λ refusal. Some (form_refusal_entry refusal).word };

    fn fmt<W: fmt::Write>(&self, f: &mut fmt::Formatter<W>) -> fmt::Result {
        f.write_str(self.word())
    }
}

/// Why a value was not read.
pub type FormFault = Fault<FormRefusal>;
