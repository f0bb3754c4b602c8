//! Whether a table of one of the names is there.

ghost use Rattle.std.specs.Prelude.{◌≡◌, is_some};
ghost use Rattle.std.specs.List.{list_any};
ghost use Rattle.std.specs.Option.{option_copied};
ghost use Rattle.lab_store_files.specs.Schemas as spec;

use crate::texts;
use sqlite_schema::names::same_name;
use sqlite_schema::schema::{Schema, Table};

// The table of a name.
fn table_named<'a>(schema: &'a Schema, name: &str) -> Option<&'a Table>
    ensures { option_copied result ≡ spec.table_named schema.now name.now }
{
    schema
        .tables
        .as_slice()
        .iter()
        .find(|table| same_name(table.name.as_slice(), name.as_bytes()))
}

// Whether a table of the name is there.
fn has_name(schema: &Schema, name: &str) -> bool
    ensures { result ≡ is_some (spec.table_named schema.now name.now) }
{
    match table_named(schema, name) {
        Some(_) => true,
        None => false,
    }
}

// Whether a table of one of these names is there.
fn has_any(schema: &Schema, names: &[&str]) -> bool
    ensures { result ≡ list_any (λ name. is_some (spec.table_named schema.now name.now)) names.now }
{
    names.iter().any(|name| has_name(schema, name))
}

/// Whether a table of one of the names is there.
pub(crate) fn is_taken(schema: &Schema) -> bool
    ensures { result ≡ spec.is_taken schema.now }
{
    has_any(schema, texts::NAMES.as_slice())
}
