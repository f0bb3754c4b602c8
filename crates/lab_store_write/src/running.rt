//! A running transaction.

ghost use Rattle.sqlite.specs.Held.{state as state_held};

use crate::writable::Writable;
use sqlite::types::ValueRef;
use sqlite::{Alter, Error, Row, Transaction};

/// A running transaction, lent by its owner, who commits it afterwards.
pub struct Inside<'tx, 'conn, S: Alter> {
    /// The transaction.
    pub tx: &'tx mut Transaction<'conn, S>,
}

impl<'tx, 'conn, S: Alter> Writable for Inside<'tx, 'conn, S> {
    ghost state = { λ inside. state_held S.Store inside.tx.now.conn.now };

    ghost lender = { λ inside. (inside.tx.ghost_name, inside.tx.now.conn.ghost_name) };

    fn query_all(&mut self, sql: &str, params: &[ValueRef<'_>]) -> Result<Vec<Row>, Error> {
        self.tx.query_all(sql, params)
    }

    fn execute(&mut self, sql: &str, params: &[ValueRef<'_>]) -> Result<usize, Error> {
        self.tx.execute(sql, params)
    }

    fn last_insert_rowid(&self) -> i64 {
        self.tx.last_insert_rowid()
    }
}
