//! The twelve tables of an older schema by name, and which columns and references each has.

ghost use Rattle.std.specs.Prelude.{◌≡◌};
ghost use Rattle.std.specs.List.{list_all};
ghost use Rattle.lab_store_files.specs.Schemas.{has_columns};
ghost use Rattle.lab_move.specs.Arrows.{has_arrow, has_arrows};
ghost use Rattle.lab_move.specs.OldFiles.{is_like, name_of, own_table};
ghost use Rattle.lab_move.specs.declared.old_tables.OldTable.TheVariants.{Persons, Forms, Versions};

use crate::arrows::{has_arrow, has_id};
use crate::schemas::has_all;
use lab_move_tables::Older;
use sqlite_schema::schema::Table;

/// A table of a file of an older schema.
#[derive(Clone, Copy, Debug, PartialEq, Eq)]
pub(crate) enum OldTable {
    Desk,
    Labs,
    Persons,
    Sessions,
    Forms,
    Fields,
    Choices,
    Records,
    Versions,
    Entries,
    Signatures,
    Trail,
}

const DESK: [&str; 2] = ["id", "schema"];

const LABS: [&str; 8] = [
    "id", "code", "name", "last", "stray", "records", "sessions", "trail",
];

const PERSONS: [&str; 19] = [
    "id",
    "lab",
    "code",
    "name",
    "roles",
    "retired",
    "failures",
    "locked",
    "kind",
    "salt",
    "rounds",
    "bytes",
    "salt2",
    "bytes2",
    "changed",
    "asker",
    "asked",
    "ask_salt",
    "ask_bytes",
];

const SESSIONS: [&str; 9] = [
    "id", "lab", "person", "number", "token", "opened", "last", "closed", "signed",
];

const FORMS: [&str; 4] = ["id", "lab", "code", "version"];

const FIELDS: [&str; 12] = [
    "id", "form", "place", "key", "label", "required", "kind", "unit", "decimals", "low", "high",
    "size",
];

const CHOICES: [&str; 4] = ["id", "field", "place", "name"];

const RECORDS: [&str; 7] = [
    "id",
    "lab",
    "number",
    "form",
    "form_code",
    "sample",
    "current",
];

const VERSIONS: [&str; 6] = ["id", "record", "number", "opener", "opened", "reason"];

const ENTRIES: [&str; 9] = [
    "id", "version", "place", "key", "value", "unit", "person", "moment", "reason",
];

const SIGNATURES: [&str; 10] = [
    "id", "version", "place", "person", "name", "meaning", "moment", "reason", "digest", "seal",
];

const TRAIL: [&str; 7] = [
    "id", "lab", "number", "moment", "person", "action", "subject",
];

// The references of each table: a column, and the table whose ids it holds.

const OF_PERSONS: [(&str, &str); 2] = [("lab", "labs"), ("asker", "persons")];

const OF_SESSIONS: [(&str, &str); 2] = [("lab", "labs"), ("person", "persons")];

const OF_FORMS: [(&str, &str); 1] = [("lab", "labs")];

const OF_FIELDS: [(&str, &str); 1] = [("form", "forms")];

const OF_CHOICES: [(&str, &str); 1] = [("field", "fields")];

const OF_RECORDS: [(&str, &str); 2] = [("lab", "labs"), ("form", "forms")];

const OF_VERSIONS: [(&str, &str); 2] = [("record", "records"), ("opener", "persons")];

const OF_ENTRIES: [(&str, &str); 2] = [("version", "versions"), ("person", "persons")];

const OF_SIGNATURES: [(&str, &str); 2] = [("version", "versions"), ("person", "persons")];

const OF_TRAIL: [(&str, &str); 2] = [("lab", "labs"), ("person", "persons")];

// Whether the table has each of the references.
fn has_each(table: &Table, arrows: &[(&str, &str)]) -> bool
    ensures { result ≡ list_all (λ arrow. has_arrow table.now arrow.0.now arrow.1.now) arrows.now }
{
    arrows
        .iter()
        .all(|arrow| has_arrow(table, arrow.0, arrow.1))
}

// The tables that have changed since, by the schema.

fn has_person_columns(older: Older, table: &Table) -> bool
    ensures { result ≡ has_columns (own_table older Persons) table.now }
{
    match older {
        Older::Two => has_all(table, PERSONS.as_slice()),
    }
}

fn has_person_arrows(older: Older, table: &Table) -> bool
    ensures { result ≡ has_arrows (own_table older Persons) table.now }
{
    match older {
        Older::Two => has_each(table, OF_PERSONS.as_slice()),
    }
}

fn has_form_columns(older: Older, table: &Table) -> bool
    ensures { result ≡ has_columns (own_table older Forms) table.now }
{
    match older {
        Older::Two => has_all(table, FORMS.as_slice()),
    }
}

fn has_form_arrows(older: Older, table: &Table) -> bool
    ensures { result ≡ has_arrows (own_table older Forms) table.now }
{
    match older {
        Older::Two => has_each(table, OF_FORMS.as_slice()),
    }
}

fn has_version_columns(older: Older, table: &Table) -> bool
    ensures { result ≡ has_columns (own_table older Versions) table.now }
{
    match older {
        Older::Two => has_all(table, VERSIONS.as_slice()),
    }
}

fn has_version_arrows(older: Older, table: &Table) -> bool
    ensures { result ≡ has_arrows (own_table older Versions) table.now }
{
    match older {
        Older::Two => has_each(table, OF_VERSIONS.as_slice()),
    }
}

impl OldTable {
    /// The tables, in the order in which they are made.
    pub(crate) const ALL: [OldTable; 12] = [
        OldTable::Desk,
        OldTable::Labs,
        OldTable::Persons,
        OldTable::Sessions,
        OldTable::Forms,
        OldTable::Fields,
        OldTable::Choices,
        OldTable::Records,
        OldTable::Versions,
        OldTable::Entries,
        OldTable::Signatures,
        OldTable::Trail,
    ];

    /// The table's name.
    pub(crate) fn name(self) -> &'static str
        ensures { result.now ≡ name_of self }
    {
        match self {
            OldTable::Desk => "desk",
            OldTable::Labs => "labs",
            OldTable::Persons => "persons",
            OldTable::Sessions => "sessions",
            OldTable::Forms => "forms",
            OldTable::Fields => "fields",
            OldTable::Choices => "choices",
            OldTable::Records => "records",
            OldTable::Versions => "versions",
            OldTable::Entries => "entries",
            OldTable::Signatures => "signatures",
            OldTable::Trail => "trail",
        }
    }

    // Whether a table of a file has each of the columns.
    fn has_columns_in(self, older: Older, table: &Table) -> bool
        ensures { result ≡ has_columns (own_table older self) table.now }
    {
        match self {
            OldTable::Desk => has_all(table, DESK.as_slice()),
            OldTable::Labs => has_all(table, LABS.as_slice()),
            OldTable::Persons => has_person_columns(older, table),
            OldTable::Sessions => has_all(table, SESSIONS.as_slice()),
            OldTable::Forms => has_form_columns(older, table),
            OldTable::Fields => has_all(table, FIELDS.as_slice()),
            OldTable::Choices => has_all(table, CHOICES.as_slice()),
            OldTable::Records => has_all(table, RECORDS.as_slice()),
            OldTable::Versions => has_version_columns(older, table),
            OldTable::Entries => has_all(table, ENTRIES.as_slice()),
            OldTable::Signatures => has_all(table, SIGNATURES.as_slice()),
            OldTable::Trail => has_all(table, TRAIL.as_slice()),
        }
    }

    // Whether it has each of the references.
    fn has_arrows_in(self, older: Older, table: &Table) -> bool
        ensures { result ≡ has_arrows (own_table older self) table.now }
    {
        match self {
            OldTable::Desk => true,
            OldTable::Labs => true,
            OldTable::Persons => has_person_arrows(older, table),
            OldTable::Sessions => has_each(table, OF_SESSIONS.as_slice()),
            OldTable::Forms => has_form_arrows(older, table),
            OldTable::Fields => has_each(table, OF_FIELDS.as_slice()),
            OldTable::Choices => has_each(table, OF_CHOICES.as_slice()),
            OldTable::Records => has_each(table, OF_RECORDS.as_slice()),
            OldTable::Versions => has_version_arrows(older, table),
            OldTable::Entries => has_each(table, OF_ENTRIES.as_slice()),
            OldTable::Signatures => has_each(table, OF_SIGNATURES.as_slice()),
            OldTable::Trail => has_each(table, OF_TRAIL.as_slice()),
        }
    }

    /// Whether a table of a file is like this one: it has the columns, an id and the references.
    pub(crate) fn is_like(self, older: Older, table: &Table) -> bool
        ensures { result ≡ is_like (own_table older self) table.now }
    {
        self.has_columns_in(older, table) && has_id(table) && self.has_arrows_in(older, table)
    }
}
