//! What a request asks, with the parameters of its path. Each segment of a path is read once, as the
//! table's text says.
ghost use Rattle.std.specs.Prelude.{◌≡◌, if◌then◌else◌, Some, None, IfOk};
ghost use Rattle.lab_wire.specs.Paths.{segments};
ghost use Rattle.lab_wire.specs.Routes.{is_number_mark, is_key_mark};
ghost use Rattle.lab_wire.specs.Aims.{part_of, key_part, number_part, with_part, no_parts, parts_from, form_aim, aim_of};

use crate::numbers::ordinal_in;
use crate::paths::next_segment;
use crate::routes::Route;
use lab_forms_texts::{Keys, Ordinal, OutOfMemory, Text, TextRule};
use lab_seal::fields::own_copy;
use lab_wire_bodies::Post;
use std::alloc::Global;
use std::marker::{Model, PhantomData};

/// A text in a path that its rule admits.
///
/// A contract sees it as the list of its bytes.
pub struct Admitted<'t, R: TextRule> {
    text: &'t str,
    rule: PhantomData<R>,
}

impl<'t, R: TextRule> Drop for Admitted<'t, R> {
    fn drop(self) {
        let Admitted { text: _, rule: _ } = self;
    }
}

impl<'t, R: TextRule> Model for Admitted<'t, R> {
    ghost use Rattle.std.specs.Prelude.{List, ℕ, IsTrue};

    ghost Value = { List ℕ };

    ghost view = { λ admitted. admitted.text.now };

    ghost invariant = { λ admitted. IsTrue (R.admits admitted.text.now) };
}

impl<'t, R: TextRule> Admitted<'t, R> {
    /// Returns the text, if its rule admits it.
    pub fn of(text: &'t str) -> Option<Admitted<'t, R>>
        ensures { result ≡ (if R.admits text.now then Some text.now else None) }
    {
        if R::admits(text) {
            Some(Admitted {
                text,
                rule: PhantomData,
            })
        } else {
            None
        }
    }

    /// Returns a copy of the text, which isn't checked a second time.
    ///
    /// # Errors
    /// Memory ran out.
    pub fn own(&self, alloc: Global) -> Result<Text<R>, OutOfMemory>
        ensures { IfOk result (λ copy. copy ≡ self.now) }
    {
        own_copy(alloc, self.text)
    }
}

/// What a segment of a path gives.
#[derive(Drop)]
pub enum Part<'t> {
    /// Nothing, because it is a word of the table.
    Word,
    /// The key of a form.
    Key(Admitted<'t, Keys>),
    /// The number of a record or of a version.
    Number(Ordinal),
}

/// The parameters of a path. There are at most two, and the last one is in `second`.
#[derive(Drop)]
pub struct Parts<'t> {
    /// The first of two.
    pub first: Part<'t>,
    /// The second of two, or the only one.
    pub second: Part<'t>,
}

/// What a request asks, with the parameters of its path.
#[derive(Drop)]
pub enum Aim<'t> {
    /// The laboratory's card.
    Card,
    /// Its persons.
    Persons,
    /// A version of a form.
    Form {
        /// The form's key.
        code: Admitted<'t, Keys>,
        /// The version's number.
        version: Ordinal,
    },
    /// A record.
    Record {
        /// Its number.
        number: Ordinal,
    },
    /// A version of a record.
    Version {
        /// The record's number.
        number: Ordinal,
        /// The version's number.
        version: Ordinal,
    },
    /// Records from a number to a number.
    Records,
    /// Rows of the trail from a number to a number.
    Trail,
    /// A copy of records from a number to a number.
    Copy,
    /// What a body names.
    Posted(Post),
}

fn is_number_mark(mark: &str) -> bool
    ensures { result ≡ is_number_mark mark.now }
{
    mark == "{record}" || mark == "{version}"
}

fn is_key_mark(mark: &str) -> bool
    ensures { result ≡ is_key_mark mark.now }
{
    mark == "{form}"
}

// What a segment of a path gives, if the segment of the table's text admits it.
fn part_of<'t>(mark: &str, segment: &'t str) -> Option<Part<'t>>
    ensures { result ≡ part_of mark.now segment.now }
{
    if is_key_mark(mark) {
        Some(Part::Key(Admitted::of(segment)?))
    } else if is_number_mark(mark) {
        Some(Part::Number(ordinal_in(segment)?))
    } else if mark == segment {
        Some(Part::Word)
    } else {
        None
    }
}

impl<'t> Part<'t> {
    // The key, if the part is one.
    fn key(self) -> Option<Admitted<'t, Keys>>
        ensures { result ≡ key_part self.entry }
    {
        match self {
            Part::Key(key) => Some(key),
            _ => None,
        }
    }

    // The number, if the part is one.
    fn number(&self) -> Option<Ordinal>
        ensures { result ≡ number_part self.now }
    {
        match self {
            Part::Number(number) => Some(*number),
            _ => None,
        }
    }
}

impl<'t> Parts<'t> {
    // These parameters and one more, unless the part is a word.
    fn with(self, part: Part<'t>) -> Parts<'t>
        ensures { result ≡ with_part self.entry part.entry }
    {
        match part {
            Part::Word => self,
            _ => Parts {
                first: self.second,
                second: part,
            },
        }
    }
}

/// Returns the parameters of a place, if the table's text admits it: the two have the same number
/// of segments, and each is admitted.
pub fn parts_by<'t>(text: &str, place: &'t str) -> Option<Parts<'t>>
    ensures { result ≡ parts_from no_parts (segments text.now) (segments place.now) }
{
    let mut parts = Parts {
        first: Part::Word,
        second: Part::Word,
    };
    let mut marks = text;
    let mut rest = place;
    while let Some((mark, marks_after)) = next_segment(marks) {
        let (segment, after) = next_segment(rest)?;
        parts = parts.with(part_of(mark, segment)?);
        marks = marks_after;
        rest = after;
    }
    match next_segment(rest) {
        Some(_) => None,
        None => Some(parts),
    }
}

// A version of a form.
fn form_aim<'t>(parts: Parts<'t>) -> Option<Aim<'t>>
    ensures { result ≡ form_aim (key_part parts.entry.first) (number_part parts.entry.second) }
{
    let version = parts.second.number()?;
    let code = parts.first.key()?;
    Some(Aim::Form { code, version })
}

/// Returns what a route asks with its parameters, if they are those of the route.
pub fn aim_of<'t>(route: Route, parts: Parts<'t>) -> Option<Aim<'t>>
    ensures { result ≡ aim_of route parts.entry.first parts.entry.second }
{
    match route {
        Route::Card => Some(Aim::Card),
        Route::Persons => Some(Aim::Persons),
        Route::Form => form_aim(parts),
        Route::Record => Some(Aim::Record {
            number: parts.second.number()?,
        }),
        Route::Version => Some(Aim::Version {
            number: parts.first.number()?,
            version: parts.second.number()?,
        }),
        Route::Records => Some(Aim::Records),
        Route::Trail => Some(Aim::Trail),
        Route::Copy => Some(Aim::Copy),
        Route::Posted(post) => Some(Aim::Posted(post)),
    }
}
