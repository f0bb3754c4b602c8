//! The tables of a file, over a connection.

ghost use Rattle.sqlite.specs.Held.{state as state_held};

use lab_store_read::{ReadFault, Readable, read_fault};
use sqlite::types::ValueRef;
use sqlite::{Alter, Connection, Row};

/// The tables of a file, over a connection that was created or opened by `lab_store_files`.
#[derive(Drop)]
pub struct Tables<S: Alter> {
    /// The connection.
    pub conn: Connection<S>,
}

impl<S: Alter> Readable for Tables<S> {
    ghost state = { λ tables. state_held S.Store tables.conn };

    fn query_all(&mut self, sql: &str, params: &[ValueRef<'_>]) -> Result<Vec<Row>, ReadFault> {
        match self.conn.query_all(sql, params) {
            Ok(rows) => Ok(rows),
            Err(error) => Err(read_fault(error)),
        }
    }
}
