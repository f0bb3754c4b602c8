//! What another program added to a file of laboratories.

use sqlite_schema::schema::Schema;
use std::io::{self, Write};

/// The number of tables of a file to which nothing was added (docs/TABLES.md).
const TABLES: usize = 12;

/// The number of its indexes: `sessions_of_person`, and those that SQLite makes for UNIQUE.
const INDEXES: usize = 16;

/// How many things another program added to a file of laboratories. The theorem is about a file
/// without them (docs/TABLES.md, 'What may be added to a file').
#[derive(Clone, Copy, Debug, PartialEq, Eq)]
pub struct Additions {
    tables: usize,
    indexes: usize,
    others: usize,
}

impl Additions {
    /// Counts what was added to a file of this schema.
    pub fn of(schema: &Schema) -> Additions {
        Additions {
            tables: schema.tables.len().saturating_sub(TABLES),
            indexes: schema.indexes.len().saturating_sub(INDEXES),
            others: schema.views.len(),
        }
    }

    /// Returns whether nothing was added.
    pub fn are_none(&self) -> bool {
        self.tables == 0 && self.indexes == 0 && self.others == 0
    }

    /// Writes a line that says what was added to the file at the path.
    pub fn write<W: Write>(&self, errors: &mut W, path: &str) -> io::Result<()> {
        let Additions {
            tables,
            indexes,
            others,
        } = self;
        writeln!(
            errors,
            "labdesk: another program added to {path}: tables {tables}, indexes {indexes}, other things {others}; see docs/TABLES.md"
        )
    }
}
