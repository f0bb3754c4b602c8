//! What rows are read from: the tables of a file.

ghost use Rattle.sqlite.specs.State.{State};
ghost use Rattle.sqlite.specs.Values.{bound};
ghost use Rattle.lab_store_read.specs.Reads.{AsksQuery};

use crate::faults::ReadFault;
use sqlite::Row;
use sqlite::types::ValueRef;

/// What answers queries. It has a state, and each reader states what it reads from the state and
/// what stays unchanged.
///
/// Readers name no connection. So what is proved of them holds over everything that answers queries
/// in this way, and a crate of readers doesn't depend on the connection.
pub trait Readable {
    /// The tables that are shown, and what a statement does to them.
    ghost state: { Self → State };

    /// Returns all rows of the answer.
    ///
    /// # Errors
    /// The statement is refused, the disk fails, or memory runs out.
    fn query_all(&mut self, sql: &str, params: &[ValueRef<'_>]) -> Result<Vec<Row>, ReadFault>
        ensures { AsksQuery sql.now (bound params.now) (state self.old) (state self.new) result };
}
