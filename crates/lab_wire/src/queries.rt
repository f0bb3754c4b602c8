//! The query of a request that reads records or the trail, or takes a copy.
ghost use Rattle.std.specs.Prelude.{◌≡◌, ◌∷◌};
ghost use Rattle.std.specs.List.{slice_split};
ghost use Rattle.lab_wire.specs.Queries.{number_behind, range_of, is_ampersand, range_by, range_in};

use crate::numbers::ordinal_in;
use crate::paths::behind;
use lab_forms_texts::Ordinal;

/// How far the last number of a range may be from its first.
const RANGE_LIMIT: u32 = 99;

/// A range of numbers, with its first and its last.
#[derive(Clone, Copy, Debug, PartialEq, Eq, Drop)]
pub struct Range {
    /// The first number.
    pub from: Ordinal,
    /// The last number.
    pub to: Ordinal,
}

// The number that follows a member's name.
fn number_behind(name: &str, piece: &str) -> Option<Ordinal>
    ensures { result ≡ number_behind name.now piece.now }
{
    ordinal_in(behind(name, piece)?)
}

fn range_of(from: Option<Ordinal>, to: Option<Ordinal>) -> Option<Range>
    ensures { result ≡ range_of from to }
{
    let (Some(from), Some(to)) = (from, to) else {
        return None;
    };
    if from.get() <= to.get() && to.get() <= from.get() + RANGE_LIMIT {
        Some(Range { from, to })
    } else {
        None
    }
}

// The range of a first member and the others, which must be one.
fn range_by(one: &str, others: &str) -> Option<Range>
    ensures { result ≡ range_by (one.now ∷ slice_split is_ampersand others.now) }
{
    match others.split_once('&') {
        Some(_) => None,
        None => range_of(number_behind("from=", one), number_behind("to=", others)),
    }
}

/// Returns the range of a query: exactly `from=A&to=B`, of at most a hundred numbers.
pub fn range_in(query: &str) -> Option<Range>
    ensures { result ≡ range_in query.now }
{
    match query.split_once('&') {
        Some((one, others)) => range_by(one, others),
        None => None,
    }
}
