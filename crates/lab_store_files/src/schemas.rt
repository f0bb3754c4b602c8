//! The tables that the schema of a file has.

ghost use Rattle.std.specs.Prelude.{◌≡◌, is_some};
ghost use Rattle.std.specs.List.{list_all};
ghost use Rattle.std.specs.Option.{option_copied};
ghost use Rattle.lab_store_files.specs.Schemas as spec;
ghost use Rattle.lab_store_files.specs.Tables.{table_name};

use crate::tables::LabTable;
use sqlite_schema::names::same_name;
use sqlite_schema::schema::{Schema, Table};

// The table with a name.
fn table_named<'a>(schema: &'a Schema, name: &str) -> Option<&'a Table>
    ensures { option_copied result ≡ spec.table_named schema.now name.now }
{
    schema
        .tables
        .as_slice()
        .iter()
        .find(|table| same_name(table.name.as_slice(), name.as_bytes()))
}

fn has_column(table: &Table, name: &str) -> bool
    ensures { result ≡ spec.has_column table.now name.now }
{
    table.columns.as_slice().iter().any(|column| same_name(column.name.as_slice(), name.as_bytes()))
}

/// Returns whether the table has a column with each name.
pub(crate) fn has_all(table: &Table, names: &[&str]) -> bool
    ensures { result ≡ list_all (λ name. spec.has_column table.now name.now) names.now }
{
    names.iter().all(|name| has_column(table, name))
}

fn has_name(schema: &Schema, one: LabTable) -> bool
    ensures { result ≡ is_some (spec.table_named schema.now (table_name one)) }
{
    match table_named(schema, one.name()) {
        Some(_) => true,
        None => false,
    }
}

fn has_table(schema: &Schema, one: LabTable) -> bool
    ensures { result ≡ spec.has_table schema.now one }
{
    match table_named(schema, one.name()) {
        Some(table) => one.has_columns_in(table),
        None => false,
    }
}

/// Returns whether all tables are there, with their columns.
pub(crate) fn is_whole(schema: &Schema) -> bool
    ensures { result ≡ spec.is_whole schema.now }
{
    LabTable::ALL.iter().all(|one| has_table(schema, *one))
}

/// Returns whether a table with one of the names is there.
pub(crate) fn is_taken(schema: &Schema) -> bool
    ensures { result ≡ spec.is_taken schema.now }
{
    LabTable::ALL.iter().any(|one| has_name(schema, *one))
}

/// Returns whether the file can be asked for the number of its schema.
pub(crate) fn has_number(schema: &Schema) -> bool
    ensures { result ≡ spec.has_number schema.now }
{
    match table_named(schema, "desk") {
        Some(desk) => has_column(desk, "schema"),
        None => false,
    }
}
