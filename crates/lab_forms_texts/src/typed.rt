//! A text as somebody typed it, which no rule has checked yet.

ghost use Rattle.std.specs.Prelude.{◌≡◌, string_bytes};

use std::marker::Model;

/// A text as somebody typed it: a password, or a value that no form has read yet. It isn't a
/// `Writing`, since a password is neither printed nor copied.
///
/// A contract sees it as the list of its bytes.
pub struct Typed {
    text: String,
}

// `drop` is written out, so that a caller doesn't prove again how each part is dropped.
impl Drop for Typed {
    fn drop(self) {
        let Typed { text: _ } = self;
    }
}

impl Model for Typed {
    ghost use Rattle.std.specs.Prelude.{List, ℕ, string_bytes};

    ghost Value = { List ℕ };

    ghost view = { λ typed. string_bytes typed.text };
}

impl Typed {
    /// Makes a typed text of a string.
    pub fn new(text: String) -> Typed
        ensures { result ≡ string_bytes text }
    {
        Typed { text }
    }

    /// The text.
    pub fn as_str(&self) -> &str
        ensures { result.now ≡ self.now }
    {
        self.text.as_str()
    }
}
