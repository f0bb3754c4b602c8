//! Values, as they were written.
ghost use Rattle.std.specs.Prelude.{◌≡◌, IfOk, nat_eq};
ghost use Rattle.std.specs.Cmp.Lexicographic.{pointwise, nat_list_eq_equiv};
ghost use Rattle.std.specs.Cmp.{partial_equiv_from_equiv};

use lab_forms_texts::{Note, OutOfMemory};
use std::alloc::AllocError;
use std::marker::Model;

/// A value that a form has read, as it was written: `7.5` and `7.50` are two different values.
///
/// A contract sees it as the list of its text's bytes.
#[derive(Debug)]
pub struct Value {
    text: Note,
}

// `drop` is written out, so that a caller doesn't prove again how each part is dropped.
impl Drop for Value {
    fn drop(self) {
        let Value { text: _ } = self;
    }
}

impl Model for Value {
    ghost use Rattle.std.specs.Prelude.{List, ℕ};

    ghost Value = { List ℕ };

    ghost view = { λ value. value.text };
}

impl Value {
    /// Makes a value of this text, which its form has read.
    pub(crate) fn of_note(text: Note) -> Value
        ensures { result ≡ text }
    {
        Value { text }
    }

    /// Returns the text as it was written.
    pub fn print(&self) -> &str
        ensures { result.now ≡ self.now }
    {
        self.text.as_str()
    }

    /// Returns the text as the note that it is.
    pub fn into_note(self) -> Note
        ensures { result ≡ self }
    {
        let Value { text } = self;
        text
    }

    /// A copy.
    ///
    /// # Errors
    /// Memory ran out.
    pub fn copy(&self) -> Result<Value, OutOfMemory>
        ensures { IfOk result (λ copy. copy ≡ self.now) }
    {
        Ok(self.clone()?)
    }
}

impl Clone for Value {
    ghost use Rattle.std.specs.Prelude.{◌≡◌};

    ghost is_clone = { λ value copy. copy ≡ value };

    fn clone(&self) -> Result<Value, AllocError> {
        let text = self.text.clone()?;
        Ok(Value { text })
    }
}

impl PartialEq for Value {
    ghost eq = { pointwise nat_eq };

    ghost laws = { partial_equiv_from_equiv nat_list_eq_equiv };

    fn eq(&self, other: &Value) -> bool {
        self.text == other.text
    }
}

impl Eq for Value {
    ghost laws = { nat_list_eq_equiv };
}
