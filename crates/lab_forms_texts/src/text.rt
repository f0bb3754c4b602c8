//! One type of text for codes, keys, names, notes and units. A kind of text has a rule, which says
//! which texts it admits.
ghost use Rattle.std.specs.Prelude.{◌≡◌, List, ℕ, Bool, IsTrue, IfOk, IfErr, Some, nat_eq, string_bytes};
ghost use Rattle.std.specs.Ordering.{nat_cmp};
ghost use Rattle.std.specs.Cmp.Lexicographic.{pointwise, slice_cmp, nat_list_eq_equiv, nat_list_cmp_total, texts_po, texts_ties};
ghost use Rattle.std.specs.Cmp.{partial_equiv_from_equiv};
ghost use Rattle.lab_forms_texts.specs.Faults.{NameFaultFits};

use crate::{BadName, NameFault, OutOfMemory, Writings};
use std::alloc::{AllocError, Global};
use std::cmp::Ordering;
use std::fmt;
use std::marker::{Model, PhantomData};

/// The rule of a kind of text: which texts it admits.
pub trait TextRule {
    /// The rule, over the bytes of a text.
    ghost admits: { List ℕ → Bool };

    /// Whether the kind admits a text.
    fn admits(text: &str) -> bool
        ensures { result ≡ admits text.now };
}

/// A text that its rule admits.
///
/// A contract sees it as the list of its bytes.
pub struct Text<R: TextRule> {
    text: String,
    rule: PhantomData<R>,
}

// `drop` is written out, so that a caller doesn't prove again how each part is dropped.
impl<R: TextRule> Drop for Text<R> {
    fn drop(self) {
        let Text { text: _, rule: _ } = self;
    }
}

impl<R: TextRule> Model for Text<R> {
    ghost use Rattle.std.specs.Prelude.{List, ℕ, IsTrue, string_bytes};

    ghost Value = { List ℕ };

    ghost view = { λ t. string_bytes t.text };

    ghost invariant = { λ t. IsTrue (R.admits (string_bytes t.text)) };
}

impl<R: TextRule> Text<R> {
    /// Checks a text against the rule, and returns a copy.
    ///
    /// # Errors
    /// `BadName` if the rule doesn't admit the text, or memory ran out.
    pub fn parse(alloc: Global, text: &str) -> Result<Text<R>, NameFault>
        ensures admitted { IfOk result (λ _. IsTrue (R.admits text.now)) }
        ensures value { IfOk result (λ read. read ≡ text.now) }
        ensures fault { IfErr result (NameFaultFits (R.admits text.now)) }
    {
        if !R::admits(text) {
            return Err(NameFault::Refused(BadName));
        }
        let text = String::from_str(alloc, text)?;
        Ok(Text {
            text,
            rule: PhantomData,
        })
    }

    /// The text.
    pub fn as_str(&self) -> &str
        ensures value { result.now ≡ self.now }
        ensures admitted { IsTrue (R.admits self.now) }
    {
        self.text.as_str()
    }

    /// A copy.
    ///
    /// # Errors
    /// Memory ran out.
    pub fn copy(&self) -> Result<Text<R>, OutOfMemory>
        ensures { IfOk result (λ copy. copy ≡ self.now) }
    {
        Ok(self.clone()?)
    }
}

impl Text<Writings> {
    /// Makes a writing of a text, which stays as it is. It takes no memory.
    pub fn new(text: String) -> Text<Writings>
        ensures { result ≡ string_bytes text }
    {
        Text {
            text,
            rule: PhantomData,
        }
    }
}

impl<R: TextRule> Clone for Text<R> {
    ghost use Rattle.std.specs.Prelude.{◌≡◌};

    ghost is_clone = { λ text copy. copy ≡ text };

    fn clone(&self) -> Result<Text<R>, AllocError> {
        let text = self.text.clone()?;
        Ok(Text {
            text,
            rule: PhantomData,
        })
    }
}

impl<R: TextRule> PartialEq for Text<R> {
    ghost eq = { pointwise nat_eq };

    ghost laws = { partial_equiv_from_equiv nat_list_eq_equiv };

    fn eq(&self, other: &Text<R>) -> bool {
        self.text == other.text
    }
}

impl<R: TextRule> Eq for Text<R> {
    ghost laws = { nat_list_eq_equiv };
}

impl<R: TextRule> PartialOrd for Text<R> {
    ghost partial_cmp = { λ left right. Some (slice_cmp nat_cmp left right) };

    ghost laws = { texts_po };

    fn partial_cmp(&self, other: &Text<R>) -> Option<Ordering> {
        Some(self.cmp(other))
    }
}

/// Texts are in the order of their bytes.
impl<R: TextRule> Ord for Text<R> {
    ghost use Rattle.std.specs.Prelude.{refl};

    ghost cmp = { slice_cmp nat_cmp };

    ghost total = { nat_list_cmp_total };

    ghost matches_partial_cmp = { λ left right. refl };

    ghost matches_eq = { texts_ties };

    fn cmp(&self, other: &Text<R>) -> Ordering {
        self.text.cmp(&other.text)
    }
}

impl<R: TextRule> fmt::Debug for Text<R> {
    fn fmt<W: fmt::Write>(&self, f: &mut fmt::Formatter<W>) -> fmt::Result {
        self.text.fmt(f)
    }
}
