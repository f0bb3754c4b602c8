//! What the schema of an old file has of the tables of an older schema.

ghost use Rattle.std.specs.Prelude.{◌≡◌};
ghost use Rattle.std.specs.List.{list_all};
ghost use Rattle.std.specs.Option.{option_copied};
ghost use Rattle.lab_store_files.specs.Schemas.{has_column, has_number, table_named};
ghost use Rattle.lab_move.specs.OldFiles.{has_table, is_whole};

use crate::old_tables::OldTable;
use lab_move_tables::Older;
use sqlite_schema::names::same_name;
use sqlite_schema::schema::{Schema, Table};

// The table of a name.
fn table_named<'a>(schema: &'a Schema, name: &str) -> Option<&'a Table>
    ensures { option_copied result ≡ table_named schema.now name.now }
{
    schema
        .tables
        .as_slice()
        .iter()
        .find(|table| same_name(table.name.as_slice(), name.as_bytes()))
}

fn has_column(table: &Table, name: &str) -> bool
    ensures { result ≡ has_column table.now name.now }
{
    table.columns.as_slice().iter().any(|column| same_name(column.name.as_slice(), name.as_bytes()))
}

/// Whether the table has a column of each name.
pub(crate) fn has_all(table: &Table, names: &[&str]) -> bool
    ensures { result ≡ list_all (λ name. has_column table.now name.now) names.now }
{
    names.iter().all(|name| has_column(table, name))
}

fn has_table(older: Older, schema: &Schema, one: OldTable) -> bool
    ensures { result ≡ has_table older schema.now one }
{
    match table_named(schema, one.name()) {
        Some(table) => one.is_like(older, table),
        None => false,
    }
}

/// Whether all tables are there, each with its columns, an id and its references.
pub(crate) fn is_whole(older: Older, schema: &Schema) -> bool
    ensures { result ≡ is_whole older schema.now }
{
    OldTable::ALL
        .iter()
        .all(|one| has_table(older, schema, *one))
}

/// Whether the file can be asked for the number of its schema.
pub(crate) fn has_number(schema: &Schema) -> bool
    ensures { result ≡ has_number schema.now }
{
    match table_named(schema, "desk") {
        Some(desk) => has_column(desk, "schema"),
        None => false,
    }
}
