//! What rows are written into: the tables of a file inside a transaction.

ghost use Rattle.std.specs.Prelude.{◌≡◌, ◌⊎◌, ℕ, IfOk, IfErr, IsTrue};
ghost use Rattle.sqlite.specs.State.{State, HasCleanDisk, Survives, Shown, ExecutesInside, FailsToQuery, IsTooLate};
ghost use Rattle.sqlite.specs.Values.{bound};

use sqlite::types::ValueRef;
use sqlite::{Error, Row};

/// What takes statements inside a transaction. It has a state, and each writer states what it makes
/// of the state.
///
/// Writers name no transaction. So what is proved of them holds over everything that takes
/// statements in this way, as `Inside` does.
pub trait Writable {
    /// The tables that are shown, and what a statement does to them.
    ghost state: { Self → State };

    /// The owner of the transaction: no call replaces it.
    ghost lender: { Self → ℕ × ℕ };

    /// Returns all rows of the answer.
    ///
    /// # Errors
    /// The statement is refused, the transaction has ended, the disk fails, or memory runs out.
    fn query_all(&mut self, sql: &str, params: &[ValueRef<'_>]) -> Result<Vec<Row>, Error>
        ensures same_lender { lender self.new ≡ lender self.old }
        ensures ok { HasCleanDisk (state self.new) → IfOk result (λ rows.
            Shown sql.now (bound params.now) (state self.old) (state self.new) rows.items) }
        ensures err { HasCleanDisk (state self.new) → IfErr result
            (λ e. FailsToQuery sql.now (bound params.now) (state self.old) (state self.new) e
            ⊎ IsTooLate sql.now (bound params.now) (state self.old) (state self.new) e) }
        ensures survives { Survives (state self.old) (state self.new) (λ _. ⊥) };

    /// Runs a statement that writes, and returns how many rows it wrote.
    ///
    /// # Errors
    /// The statement is refused, the transaction has ended, the disk fails, or memory runs out.
    fn execute(&mut self, sql: &str, params: &[ValueRef<'_>]) -> Result<usize, Error>
        ensures same_lender { lender self.new ≡ lender self.old }
        ensures runs { HasCleanDisk (state self.new) → IsTrue (state self.old).in_transaction →
            ExecutesInside 0 sql.now (bound params.now) (state self.old) (state self.new) result }
        ensures survives { Survives (state self.old) (state self.new) (λ _. ⊥) };

    /// Returns the id of the row that was added last.
    fn last_insert_rowid(&self) -> i64
        ensures { result ≡ (state self.now).last_rowid };
}
