//! The twelve tables by name: the statement that makes each, and its columns.

ghost use Rattle.std.specs.Prelude.{◌≡◌};
ghost use Rattle.lab_store_files.specs.Tables.{table_name, own_table};
ghost use Rattle.lab_store_files.specs.Private.Tables.{table_text};
ghost use Rattle.lab_store_files.specs.Schemas.{has_columns};

use crate::schemas::has_all;
use crate::texts;
use sqlite_schema::schema::Table;

/// A table of the file.
#[derive(Clone, Copy, Debug, PartialEq, Eq)]
pub(crate) enum LabTable {
    Desk,
    Labs,
    Persons,
    Sessions,
    Forms,
    Fields,
    Choices,
    Records,
    Versions,
    Entries,
    Signatures,
    Trail,
}

const DESK: [&str; 2] = ["id", "schema"];

const LABS: [&str; 8] = [
    "id", "code", "name", "last", "stray", "records", "sessions", "trail",
];

const PERSONS: [&str; 21] = [
    "id",
    "lab",
    "code",
    "name",
    "roles",
    "retired",
    "failures",
    "locked",
    "kind",
    "salt",
    "rounds",
    "bytes",
    "salt2",
    "rounds2",
    "bytes2",
    "changed",
    "asker",
    "asked",
    "ask_salt",
    "ask_rounds",
    "ask_bytes",
];

const SESSIONS: [&str; 9] = [
    "id", "lab", "person", "number", "token", "opened", "last", "closed", "signed",
];

const FORMS: [&str; 5] = ["id", "lab", "code", "version", "approval"];

const FIELDS: [&str; 12] = [
    "id", "form", "place", "key", "label", "required", "kind", "unit", "decimals", "low", "high",
    "size",
];

const CHOICES: [&str; 4] = ["id", "field", "place", "name"];

const RECORDS: [&str; 7] = [
    "id",
    "lab",
    "number",
    "form",
    "form_code",
    "sample",
    "current",
];

const VERSIONS: [&str; 7] = [
    "id", "record", "number", "format", "opener", "opened", "reason",
];

const ENTRIES: [&str; 9] = [
    "id", "version", "place", "key", "value", "unit", "person", "moment", "reason",
];

const SIGNATURES: [&str; 10] = [
    "id", "version", "place", "person", "name", "meaning", "moment", "reason", "digest", "seal",
];

const TRAIL: [&str; 7] = [
    "id", "lab", "number", "moment", "person", "action", "subject",
];

impl LabTable {
    /// The tables in the order in which they are made.
    pub(crate) const ALL: [LabTable; 12] = [
        LabTable::Desk,
        LabTable::Labs,
        LabTable::Persons,
        LabTable::Sessions,
        LabTable::Forms,
        LabTable::Fields,
        LabTable::Choices,
        LabTable::Records,
        LabTable::Versions,
        LabTable::Entries,
        LabTable::Signatures,
        LabTable::Trail,
    ];

    /// Returns the table's name.
    pub(crate) fn name(self) -> &'static str
        ensures { result.now ≡ table_name self }
    {
        match self {
            LabTable::Desk => "desk",
            LabTable::Labs => "labs",
            LabTable::Persons => "persons",
            LabTable::Sessions => "sessions",
            LabTable::Forms => "forms",
            LabTable::Fields => "fields",
            LabTable::Choices => "choices",
            LabTable::Records => "records",
            LabTable::Versions => "versions",
            LabTable::Entries => "entries",
            LabTable::Signatures => "signatures",
            LabTable::Trail => "trail",
        }
    }

    /// Returns whether a table of a file has each of the columns.
    pub(crate) fn has_columns_in(self, table: &Table) -> bool
        ensures { result ≡ has_columns (own_table self) table.now }
    {
        match self {
            LabTable::Desk => has_all(table, DESK.as_slice()),
            LabTable::Labs => has_all(table, LABS.as_slice()),
            LabTable::Persons => has_all(table, PERSONS.as_slice()),
            LabTable::Sessions => has_all(table, SESSIONS.as_slice()),
            LabTable::Forms => has_all(table, FORMS.as_slice()),
            LabTable::Fields => has_all(table, FIELDS.as_slice()),
            LabTable::Choices => has_all(table, CHOICES.as_slice()),
            LabTable::Records => has_all(table, RECORDS.as_slice()),
            LabTable::Versions => has_all(table, VERSIONS.as_slice()),
            LabTable::Entries => has_all(table, ENTRIES.as_slice()),
            LabTable::Signatures => has_all(table, SIGNATURES.as_slice()),
            LabTable::Trail => has_all(table, TRAIL.as_slice()),
        }
    }

    /// Returns the statement that makes the table.
    pub(crate) fn text(self) -> &'static str
        ensures { result.now ≡ table_text self }
    {
        match self {
            LabTable::Desk => texts::DESK,
            LabTable::Labs => texts::LABS,
            LabTable::Persons => texts::PERSONS,
            LabTable::Sessions => texts::SESSIONS,
            LabTable::Forms => texts::FORMS,
            LabTable::Fields => texts::FIELDS,
            LabTable::Choices => texts::CHOICES,
            LabTable::Records => texts::RECORDS,
            LabTable::Versions => texts::VERSIONS,
            LabTable::Entries => texts::ENTRIES,
            LabTable::Signatures => texts::SIGNATURES,
            LabTable::Trail => texts::TRAIL,
        }
    }
}
