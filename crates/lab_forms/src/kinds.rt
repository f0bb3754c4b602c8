//! What the fields of a form take as values.
ghost use Rattle.std.specs.Prelude.{◌≡◌, ◌≤◌, IfOk, IsTrue, List, ℕ, nat_eq, bytes_eq};
ghost use Rattle.std.specs.Cmp.Lexicographic.{pointwise, nat_list_eq_equiv, lists_equiv};
ghost use Rattle.std.specs.Cmp.{partial_equiv_from_equiv};
ghost use Rattle.lab_forms.specs.Kinds.{bound_amount, is_bound, is_at_most};

use crate::dates::is_date_text;
use crate::numbers::{DECIMALS_LIMIT, read_amount, text_without_comparison};
use crate::words::{Worded, has_word, has_word_twice};
use lab_forms_texts::{Name, Notes, OutOfMemory, TextRule, Unit, Writing};
use std::alloc::AllocError;
use std::marker::Model;

/// The most bytes of a text value.
pub const SIZE_LIMIT: u32 = 1000;

/// The most choices of a field.
pub const CHOICES_LIMIT: usize = 20;

/// The least or the greatest amount of a number, as it is written. A bound can be any text: whether
/// it is a number is tested when a form is made.
pub type Bound = Writing;

/// The names from which a value is chosen, in their order.
///
/// A contract sees them as the list of the names.
#[derive(Debug)]
pub struct Choices {
    names: Vec<Name>,
}

// `drop` is written out, so that a caller doesn't prove again how each part is dropped.
impl Drop for Choices {
    fn drop(self) {
        let Choices { names: _ } = self;
    }
}

impl Model for Choices {
    ghost use Rattle.std.specs.Prelude.{List, ℕ};

    ghost Value = { List (List ℕ) };

    ghost view = { λ choices. choices.names.items };
}

impl Choices {
    /// Makes choices of a list of names.
    pub fn new(names: Vec<Name>) -> Choices
        ensures { result ≡ names.items }
    {
        Choices { names }
    }

    /// The names.
    pub fn names(&self) -> &[Name]
        ensures { result.now ≡ self.now }
    {
        self.names.as_slice()
    }

    /// A copy.
    ///
    /// # Errors
    /// Memory ran out.
    pub fn copy(&self) -> Result<Choices, OutOfMemory>
        ensures { IfOk result (λ copy. copy ≡ self.now) }
    {
        Ok(self.clone()?)
    }
}

impl Clone for Choices {
    ghost use Rattle.std.specs.Prelude.{◌≡◌};

    ghost is_clone = { λ choices copy. copy ≡ choices };

    fn clone(&self) -> Result<Choices, AllocError> {
        let names = self.names.clone()?;
        Ok(Choices { names })
    }
}

impl PartialEq for Choices {
    ghost eq = { pointwise (pointwise nat_eq) };

    ghost laws = { partial_equiv_from_equiv (lists_equiv nat_list_eq_equiv) };

    fn eq(&self, other: &Choices) -> bool {
        self.names == other.names
    }
}

impl Eq for Choices {
    ghost laws = { lists_equiv nat_list_eq_equiv };
}

impl Worded for Name {
    ghost text_of = { λ name. name };

    fn word(&self) -> &str {
        self.as_str()
    }
}

/// What a field takes as a value.
#[derive(Debug)]
pub enum Kind {
    /// A number with at most `decimals` decimals, 0 to 6, in the unit, not below the least and not
    /// above the greatest, if these are there.
    Number {
        unit: Unit,
        decimals: u32,
        min: Option<Bound>,
        max: Option<Bound>,
    },
    /// A note of at most this many bytes, 1 to 1,000.
    Text {
        size: u32,
    },
    /// One of 1 to 20 different names.
    Choice {
        choices: Choices,
    },
    /// A date `YYYY-MM-DD` of the Gregorian calendar, from the year 0001 to the year 9999.
    Date,
    /// `yes` or `no`.
    YesNo,
}

// `drop` is written out, so that a caller doesn't prove again how each part is dropped.
impl Drop for Kind {
    fn drop(self) {
        match self {
            Kind::Number {
                unit: _,
                decimals: _,
                min: _,
                max: _,
            } => {}
            Kind::Text { size: _ } => {}
            Kind::Choice { choices: _ } => {}
            Kind::Date => {}
            Kind::YesNo => {}
        }
    }
}

fn bound_of(decimals: u32, bound: &Option<Bound>) -> Option<i128>
    requires { decimals ≤ DECIMALS_LIMIT }
    ensures { result ≡ bound_amount decimals bound.now }
{
    match bound {
        Some(bound) => read_amount(decimals, bound.as_str().as_bytes()),
        None => None,
    }
}

fn is_number_bound(decimals: u32, bound: &Option<Bound>) -> bool
    requires { decimals ≤ DECIMALS_LIMIT }
    ensures { result ≡ is_bound decimals bound.now }
{
    bound.is_none() || bound_of(decimals, bound).is_some()
}

fn is_not_above(low: Option<i128>, high: Option<i128>) -> bool
    ensures { result ≡ is_at_most low high }
{
    match (low, high) {
        (Some(low), Some(high)) => low <= high,
        _ => true,
    }
}

impl Kind {
    ghost use Rattle.lab_forms.specs.Kinds.{has_form, is_value, unit_of, is_in_range, is_kind};

    /// A copy.
    ///
    /// # Errors
    /// Memory ran out.
    pub fn copy(&self) -> Result<Kind, OutOfMemory>
        ensures { IfOk result (λ copy. copy ≡ self.now) }
    {
        Ok(self.clone()?)
    }

    /// Whether a form may ask for this kind.
    pub(crate) fn may_be_asked(&self) -> bool
        ensures { result ≡ is_kind self.now }
    {
        match self {
            Kind::Number {
                decimals,
                min,
                max,
                ..
            } => {
                *decimals <= DECIMALS_LIMIT
                    && is_number_bound(*decimals, min)
                    && is_number_bound(*decimals, max)
                    && is_not_above(bound_of(*decimals, min), bound_of(*decimals, max))
            }
            Kind::Text { size } => *size >= 1 && *size <= SIZE_LIMIT,
            Kind::Choice { choices } => {
                let names = choices.names();
                !names.is_empty() && names.len() <= CHOICES_LIMIT && !has_word_twice(names)
            }
            Kind::Date | Kind::YesNo => true,
        }
    }

    /// Whether a value of this kind can have the text.
    pub(crate) fn takes(&self, text: &str) -> bool
        requires { IsTrue (is_kind self.now) }
        ensures { result ≡ is_value self.now text.now }
    {
        Notes::admits(text) && self.has_form(text)
    }

    // Whether the text has the form of a value of this kind.
    fn has_form(&self, text: &str) -> bool
        requires { IsTrue (is_kind self.now) }
        ensures { result ≡ has_form self.now text.now }
    {
        match self {
            Kind::Number { decimals, .. } => {
                read_amount(*decimals, text_without_comparison(text.as_bytes())).is_some()
            }
            Kind::Text { size } => text.len() <= *size as usize,
            Kind::Choice { choices } => has_word(choices.names(), text),
            Kind::Date => is_date_text(text.as_bytes()),
            Kind::YesNo => text == "yes" || text == "no",
        }
    }

    /// The unit of the values of this kind.
    pub(crate) fn unit(&self) -> &str
        ensures { result.now ≡ unit_of self.now }
    {
        match self {
            Kind::Number { unit, .. } => unit.as_str(),
            _ => "",
        }
    }

    /// Whether a value's amount lies between the bounds.
    pub(crate) fn ranges_over(&self, text: &str) -> bool
        requires { IsTrue (is_kind self.now) }
        ensures { result ≡ is_in_range self.now text.now }
    {
        match self {
            Kind::Number {
                decimals,
                min,
                max,
                ..
            } => {
                let amount = read_amount(*decimals, text_without_comparison(text.as_bytes()));
                is_not_above(bound_of(*decimals, min), amount)
                    && is_not_above(amount, bound_of(*decimals, max))
            }
            _ => true,
        }
    }
}

impl Clone for Kind {
    ghost use Rattle.std.specs.Prelude.{◌≡◌};

    ghost is_clone = { λ kind copy. copy ≡ kind };

    fn clone(&self) -> Result<Kind, AllocError> {
        match self {
            Kind::Number {
                unit,
                decimals,
                min,
                max,
            } => {
                let unit = unit.clone()?;
                let min = min.clone()?;
                let max = max.clone()?;
                Ok(Kind::Number {
                    unit,
                    decimals: *decimals,
                    min,
                    max,
                })
            }
            Kind::Text { size } => Ok(Kind::Text { size: *size }),
            Kind::Choice { choices } => Ok(Kind::Choice {
                choices: choices.clone()?,
            }),
            Kind::Date => Ok(Kind::Date),
            Kind::YesNo => Ok(Kind::YesNo),
        }
    }
}

impl PartialEq for Kind {
    ghost use Rattle.lab_forms.specs.Kinds.{kind_eq};
    ghost use Rattle.lab_forms.specs.Equality.{kinds_equiv};

    ghost eq = { kind_eq };

    ghost laws = { partial_equiv_from_equiv kinds_equiv };

    fn eq(&self, other: &Kind) -> bool {
        match (self, other) {
            (
                Kind::Number {
                    unit,
                    decimals,
                    min,
                    max,
                },
                Kind::Number {
                    unit: other_unit,
                    decimals: other_decimals,
                    min: other_min,
                    max: other_max,
                },
            ) => {
                unit == other_unit
                    && decimals == other_decimals
                    && min == other_min
                    && max == other_max
            }
            (Kind::Text { size }, Kind::Text { size: other }) => size == other,
            (Kind::Choice { choices }, Kind::Choice { choices: other }) => choices == other,
            (Kind::Date, Kind::Date) | (Kind::YesNo, Kind::YesNo) => true,
            _ => false,
        }
    }
}

impl Eq for Kind {
    ghost use Rattle.lab_forms.specs.Equality.{kinds_equiv};

    ghost laws = { kinds_equiv };
}
