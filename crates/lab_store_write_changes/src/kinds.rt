//! The values that a field takes, as columns.

ghost use Rattle.std.specs.Prelude.{◌≡◌};
ghost use Rattle.sqlite_value.specs.declared.value.Value.TheVariants.{Text};
ghost use Rattle.sqlite_value.specs.Value.{owned};
ghost use Rattle.sqlite.specs.Values.{bound_value};
ghost use Rattle.lab_store_tables.specs.Rows.{number, optional};
ghost use Rattle.lab_store_tables.specs.Columns.{kind_columns};

use lab_forms::{Bound, Kind};
use sqlite::types::ValueRef;

/// Returns the word of the kind.
pub(crate) fn kind_word(kind: &Kind) -> &'static str
    ensures { result.now ≡ (kind_columns kind.now).word }
{
    match kind {
        Kind::Number { .. } => "number",
        Kind::Text { .. } => "text",
        Kind::Choice { .. } => "choice",
        Kind::Date => "date",
        Kind::YesNo => "yesno",
    }
}

// A bound, or NULL.
fn bound_or_null(bound: &Option<Bound>) -> ValueRef<'_>
    ensures { bound_value (owned result) ≡ optional Text bound.now }
{
    match bound {
        Some(bound) => ValueRef::Text(bound.as_str().as_bytes()),
        None => ValueRef::Null,
    }
}

/// Returns the unit of a number, or NULL.
pub(crate) fn unit_or_null(kind: &Kind) -> ValueRef<'_>
    ensures { bound_value (owned result) ≡ optional Text (kind_columns kind.now).unit }
{
    match kind {
        Kind::Number { unit, .. } => ValueRef::Text(unit.as_str().as_bytes()),
        Kind::Text { .. } | Kind::Choice { .. } | Kind::Date | Kind::YesNo => ValueRef::Null,
    }
}

/// Returns the decimals of a number, or NULL.
pub(crate) fn decimals_or_null(kind: &Kind) -> ValueRef<'_>
    ensures { bound_value (owned result) ≡ optional number (kind_columns kind.now).decimals }
{
    match kind {
        Kind::Number { decimals, .. } => ValueRef::Int(i64::from(*decimals)),
        Kind::Text { .. } | Kind::Choice { .. } | Kind::Date | Kind::YesNo => ValueRef::Null,
    }
}

/// Returns the least number, or NULL.
pub(crate) fn low_or_null(kind: &Kind) -> ValueRef<'_>
    ensures { bound_value (owned result) ≡ optional Text (kind_columns kind.now).low }
{
    match kind {
        Kind::Number { min, .. } => bound_or_null(min),
        Kind::Text { .. } | Kind::Choice { .. } | Kind::Date | Kind::YesNo => ValueRef::Null,
    }
}

/// Returns the greatest number, or NULL.
pub(crate) fn high_or_null(kind: &Kind) -> ValueRef<'_>
    ensures { bound_value (owned result) ≡ optional Text (kind_columns kind.now).high }
{
    match kind {
        Kind::Number { max, .. } => bound_or_null(max),
        Kind::Text { .. } | Kind::Choice { .. } | Kind::Date | Kind::YesNo => ValueRef::Null,
    }
}

/// Returns the size of a text, or NULL.
pub(crate) fn size_or_null(kind: &Kind) -> ValueRef<'_>
    ensures { bound_value (owned result) ≡ optional number (kind_columns kind.now).size }
{
    match kind {
        Kind::Text { size } => ValueRef::Int(i64::from(*size)),
        Kind::Number { .. } | Kind::Choice { .. } | Kind::Date | Kind::YesNo => ValueRef::Null,
    }
}
