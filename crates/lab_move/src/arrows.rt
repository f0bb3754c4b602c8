//! Whether a table of an old file has an id of its own, and which of its columns hold ids of other tables. It doesn't matter how the
//! statement that made the table is written, nor in which order its columns stand.

ghost use Rattle.std.specs.Prelude.{◌≡◌};
ghost use Rattle.std.specs.List.{list_any};
ghost use Rattle.lab_move.specs.Arrows.{has_arrow, has_id, is_alone, is_arrow, leads_to_ids};

use sqlite_schema::names::same_name;
use sqlite_schema::schema::{Reference, Table};
use sqlite_value::value::Bytes;

/// Whether the table's column `id` is its key, with which SQLite numbers its rows.
pub(crate) fn has_id(table: &Table) -> bool
    ensures { result ≡ has_id table.now }
{
    match table.column_named("id".as_bytes()) {
        Some(at) => table.place_of(at) == 0,
        None => false,
    }
}

// Whether the place is the only one.
fn is_alone(places: &[usize], place: usize) -> bool
    ensures { result ≡ is_alone place places.now }
{
    if places.len() != 1 {
        return false;
    }
    places[0] == place
}

// Whether a reference to these columns leads to ids: it names none, or the id alone.
fn leads_to_ids(names: &[Bytes]) -> bool
    ensures { result ≡ leads_to_ids names.now }
{
    if names.is_empty() {
        return true;
    }
    if names.len() != 1 {
        return false;
    }
    same_name(names[0].as_slice(), "id".as_bytes())
}

// Whether the reference leads from the place of a row to the id of a row of the table of the name.
fn is_arrow(reference: &Reference, place: usize, parent: &str) -> bool
    ensures { result ≡ is_arrow place parent.now reference.now }
{
    if !is_alone(reference.columns.as_slice(), place) {
        return false;
    }
    if !same_name(reference.parent.as_slice(), parent.as_bytes()) {
        return false;
    }
    leads_to_ids(reference.parent_columns.as_slice())
}

// Whether a reference leads so.
fn leads_from(table: &Table, place: usize, parent: &str) -> bool
    ensures { result ≡ list_any (is_arrow place parent.now) table.now.references }
{
    table
        .references
        .as_slice()
        .iter()
        .any(|reference| is_arrow(reference, place, parent))
}

/// Whether the column of the name holds ids of the table of the other name, as a reference of the table says.
pub(crate) fn has_arrow(table: &Table, column: &str, parent: &str) -> bool
    ensures { result ≡ has_arrow table.now column.now parent.now }
{
    match table.column_named(column.as_bytes()) {
        Some(at) => leads_from(table, table.place_of(at), parent),
        None => false,
    }
}
