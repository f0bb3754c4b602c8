//! Forms, and the values that they read.
ghost use Rattle.std.specs.Prelude.{◌≡◌, ◌≢◌, Some, IfSome, IfOk, IfErr, IsTrue, MatchBool};
ghost use Rattle.std.specs.List.{list_all};
ghost use Rattle.std.specs.Option.{option_copied};
ghost use Rattle.std.specs.Cmp.{partial_equiv_from_equiv};
ghost use Rattle.lab_forms.specs.Forms.{is_form, is_field, form_made, field_eq, form_eq, field_of, fits_form, kind_refusal, value_refusal, IsFirstFault};
ghost use Rattle.lab_forms.specs.Kinds.{is_kind, fits};

use crate::kinds::Kind;
use crate::values::Value;
use crate::words::{Worded, has_word_twice};
use crate::{FormFault, FormRefusal};
use lab_forms_texts::{Key, Name, NameFault, Note, OutOfMemory, Unit};
use std::alloc::{AllocError, Global};
use std::marker::Model;

/// The most fields of a form.
pub const FIELDS_LIMIT: usize = 60;

/// A field of a form.
#[derive(Debug)]
pub struct Field {
    /// The key of the field in its form.
    pub key: Key,
    /// The label that people read beside the field.
    pub label: Name,
    /// Whether a record must have a value of the field before the record is signed.
    pub required: bool,
    /// What the field takes as a value.
    pub kind: Kind,
}

// `drop` is written out, so that a caller doesn't prove again how each part is dropped.
impl Drop for Field {
    fn drop(self) {
        let Field {
            key: _,
            label: _,
            required: _,
            kind: _,
        } = self;
    }
}

impl Field {
    /// A copy.
    ///
    /// # Errors
    /// Memory ran out.
    pub fn copy(&self) -> Result<Field, OutOfMemory>
        ensures { IfOk result (λ copy. copy ≡ self.now) }
    {
        Ok(self.clone()?)
    }
}

impl Clone for Field {
    ghost use Rattle.std.specs.Prelude.{◌≡◌};

    ghost is_clone = { λ field copy. copy ≡ field };

    fn clone(&self) -> Result<Field, AllocError> {
        let key = self.key.clone()?;
        let label = self.label.clone()?;
        let kind = self.kind.clone()?;
        Ok(Field {
            key,
            label,
            required: self.required,
            kind,
        })
    }
}

impl PartialEq for Field {
    ghost use Rattle.lab_forms.specs.Equality.{fields_equiv};

    ghost eq = { field_eq };

    ghost laws = { partial_equiv_from_equiv fields_equiv };

    fn eq(&self, other: &Field) -> bool {
        self.key == other.key
            && self.label == other.label
            && self.required == other.required
            && self.kind == other.kind
    }
}

impl Eq for Field {
    ghost use Rattle.lab_forms.specs.Equality.{fields_equiv};

    ghost laws = { fields_equiv };
}

impl Worded for Field {
    ghost use Rattle.lab_forms.specs.Forms.{key_of};

    ghost text_of = { key_of };

    fn word(&self) -> &str {
        self.key.as_str()
    }
}

/// A form: one field or more within the limit, each with a key of its own, and whether a third
/// person has to approve what it records before the release.
///
/// A contract sees it as a sheet: the list of its fields, and whether an approval is wanted.
#[derive(Debug)]
pub struct Form {
    fields: Vec<Field>,
    approval: bool,
}

// `drop` is written out, so that a caller doesn't prove again how each part is dropped.
impl Drop for Form {
    fn drop(self) {
        let Form {
            fields: _,
            approval: _,
        } = self;
    }
}

impl Model for Form {
    ghost use Rattle.std.specs.Prelude.{IsTrue};
    ghost use Rattle.lab_forms.specs.Forms.{FormSheet, is_form};

    ghost Value = { FormSheet };

    ghost view = { λ form. record { fields = form.fields.items; approval = form.approval } };

    ghost invariant = { λ form. IsTrue (is_form form.fields.items) };
}

impl Form {
    /// Makes a form of these fields. Refuses for the first of these that holds: `NoFields`,
    /// `KeyTwice`, `TooManyFields`, `BadField`.
    ///
    /// # Errors
    /// The reason why the fields don't make a form.
    #[tactic(auto, unfolding(crate::specs::Forms::is_form, crate::specs::Forms::form_refusal))]
    pub fn make(fields: Vec<Field>, approval: bool) -> Result<Form, FormRefusal>
        ensures made { result ≡ form_made fields.items approval }
        ensures admitted { IfOk result (λ _. IsTrue (is_form fields.items)) }
    {
        if fields.is_empty() {
            return Err(FormRefusal::NoFields);
        }
        if has_word_twice(&fields) {
            return Err(FormRefusal::KeyTwice);
        }
        if fields.len() > FIELDS_LIMIT {
            return Err(FormRefusal::TooManyFields);
        }
        if !may_all_be_asked(&fields) {
            return Err(FormRefusal::BadField);
        }
        Ok(Form { fields, approval })
    }

    /// The fields that the form was made of.
    pub fn fields(&self) -> &[Field]
        ensures value { result.now ≡ self.now.fields }
        ensures admitted { IsTrue (is_form self.now.fields) }
    {
        self.fields.as_slice()
    }

    /// Whether a third person has to approve what the form records before the release.
    pub fn approval(&self) -> bool
        ensures { result ≡ self.now.approval }
    {
        self.approval
    }

    /// Reads a text as the value of a field. Refuses for the first of these that holds:
    /// `NoSuchField`, `BadValue`, `WrongUnit`, `OutOfRange`.
    ///
    /// # Errors
    /// The refusal of the value, or memory ran out.
    pub fn read_value(
        &self,
        alloc: Global,
        key: &Key,
        text: &str,
        unit: &Unit,
    ) -> Result<Value, FormFault>
        ensures fits { IfOk result
            (λ _. IsTrue (fits_form self.now.fields key.now text.now unit.now)) }
        ensures value { IfOk result (λ value. value ≡ text.now) }
        ensures fault { IfErr result
            (IsFirstFault (value_refusal self.now.fields key.now text.now unit.now)) }
    {
        let Some(field) = self.field(key) else {
            return Err(FormFault::Refused(FormRefusal::NoSuchField));
        };
        read_as(&field.kind, alloc, text, unit)
    }

    // The field with the key. A form may ask for its kind.
    fn field(&self, key: &Key) -> Option<&Field>
        ensures value { option_copied result ≡ field_of self.now.fields key.now }
        ensures kind { IfSome result (λ field. IsTrue (is_kind field.now.kind)) }
    {
        field_among(&self.fields, key)
    }

    /// A copy.
    ///
    /// # Errors
    /// Memory ran out.
    pub fn copy(&self) -> Result<Form, OutOfMemory>
        ensures { IfOk result (λ copy. copy ≡ self.now) }
    {
        Ok(self.clone()?)
    }
}

impl Clone for Form {
    ghost use Rattle.std.specs.Prelude.{◌≡◌};

    ghost is_clone = { λ form copy. copy ≡ form };

    fn clone(&self) -> Result<Form, AllocError> {
        let fields = self.fields.clone()?;
        Ok(Form {
            fields,
            approval: self.approval,
        })
    }
}

impl PartialEq for Form {
    ghost use Rattle.lab_forms.specs.Equality.{forms_equiv};

    ghost eq = { form_eq };

    ghost laws = { partial_equiv_from_equiv forms_equiv };

    #[tactic(auto, using(crate::proofs::EqualityLemmas::forms_told))]
    fn eq(&self, other: &Form) -> bool
        ensures value { result ≡ form_eq self.now other.now }
        ensures same { MatchBool result (self.now ≡ other.now) (self.now ≢ other.now) }
    {
        self.fields == other.fields && self.approval == other.approval
    }
}

impl Eq for Form {
    ghost use Rattle.lab_forms.specs.Equality.{forms_equiv};

    ghost laws = { forms_equiv };
}

fn field_among<'a>(fields: &'a [Field], key: &Key) -> Option<&'a Field>
    ensures { option_copied result ≡ field_of fields.now key.now }
{
    fields
        .iter()
        .find(|field| field.key.as_str() == key.as_str())
}

fn may_all_be_asked(fields: &[Field]) -> bool
    ensures { result ≡ list_all is_field fields.now }
{
    fields.iter().all(|field| field.kind.may_be_asked())
}

fn read_as(kind: &Kind, alloc: Global, text: &str, unit: &Unit) -> Result<Value, FormFault>
    requires { IsTrue (is_kind kind.now) }
    ensures fits { IfOk result (λ _. IsTrue (fits kind.now text.now unit.now)) }
    ensures value { IfOk result (λ value. value ≡ text.now) }
    ensures fault { IfErr result (IsFirstFault (kind_refusal kind.now text.now unit.now)) }
{
    if !kind.takes(text) {
        return Err(FormFault::Refused(FormRefusal::BadValue));
    }
    if unit.as_str() != kind.unit() {
        return Err(FormFault::Refused(FormRefusal::WrongUnit));
    }
    if !kind.ranges_over(text) {
        return Err(FormFault::Refused(FormRefusal::OutOfRange));
    }
    match Note::parse(alloc, text) {
        Ok(note) => Ok(Value::of_note(note)),
        Err(NameFault::Refused(_)) => Err(FormFault::Refused(FormRefusal::BadValue)),
        Err(NameFault::Memory) => Err(FormFault::Memory),
    }
}
