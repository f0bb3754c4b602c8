//! The only ways to a store: its tables are made in a file, or a file of them is opened.

ghost use Rattle.std.specs.Prelude.{◌≡◌, ◌⊎◌, ℕ, List, None, Err, OnOk, IfErr, IsTrue};
ghost use Rattle.sqlite.specs.Held.{state};
ghost use Rattle.sqlite.specs.State.{HasCleanDisk, IsUnchanged};
ghost use Rattle.lab_store_tables.specs.Meaning.{meaning};
ghost use Rattle.lab_store_tables.specs.Ready.{IsAtRest, IsReady, PassesBy, tables_of};
ghost use Rattle.lab_store_tables.specs.Schema.{schema_number};
ghost use Rattle.lab_store_files.specs.declared.faults.FileFault.TheVariants.{NotEmpty, Storage, Memory};
ghost use Rattle.lab_store_files.specs.NewFiles.{EndsNewFile, IsBlank, IsNewFile};
ghost use Rattle.lab_store_files.specs.Owed.{AnswersOwed};
ghost use Rattle.lab_store_files.specs.Schemas.{is_taken, is_whole};
ghost use Rattle.lab_store_files.specs.Verdicts.{AnswersVerdict};
ghost use Rattle.lab_store.specs.Openings.{ending_of, left_by};

use crate::Store;
use lab_store_files::{FileFault, create, open};
use sqlite::{Alter, Connection};
use std::alloc::Global;

/// Why there is no store over a connection, and the connection, which is handed back.
#[derive(Drop)]
pub struct Unopened<S: Alter> {
    /// Why the tables weren't made, or the file wasn't opened.
    pub fault: FileFault,
    /// The connection.
    pub conn: Connection<S>,
}

impl<S: Alter> Store<S> {
    /// Returns the keeper over a new file: its tables and the row that names their schema are made
    /// in one commit, as by `lab_store_files::create`.
    ///
    /// # Errors
    /// A table with such a name exists, the store failed, or memory ran out. The connection is
    /// handed back.
    pub fn create(alloc: Global, mut conn: Connection<S>) -> Result<Store<S>, Unopened<S>>
        requires at_rest { IsAtRest (state S.Store conn) }
        // In an empty file:
        ensures made { HasCleanDisk (state S.Store (left_by result)) →
            IsBlank (state S.Store conn).now → OnOk (ending_of result)
            (IsTrue (state S.Store (left_by result)).is_open
            × IsNewFile (state S.Store (left_by result)).now) }
        ensures ready { HasCleanDisk (state S.Store (left_by result)) →
            IsBlank (state S.Store conn).now →
            OnOk (ending_of result) (IsReady (state S.Store (left_by result))) }
        ensures nobody { HasCleanDisk (state S.Store (left_by result)) →
            IsBlank (state S.Store conn).now → OnOk (ending_of result)
            ((code : List ℕ) → meaning (tables_of (state S.Store (left_by result))) code ≡ None) }

        // In any file:
        ensures taken { IsTrue (is_taken (state S.Store conn).now.schema) →
            ending_of result ≡ Err NotEmpty }
        ensures not_empty { ending_of result ≡ Err NotEmpty →
            IsTrue (is_taken (state S.Store conn).now.schema) }
        ensures fault { IfErr (ending_of result)
            (λ fault. (fault ≡ NotEmpty) ⊎ ((fault ≡ Storage) ⊎ (fault ≡ Memory))) }
        ensures ends { EndsNewFile (state S.Store conn) (state S.Store (left_by result)) }
    {
        match create(&mut conn) {
            Ok(()) => Ok(Store::new(alloc, conn)),
            Err(fault) => Err(Unopened { fault, conn }),
        }
    }

    /// Returns the keeper over a file in which laboratories are kept, which is judged by
    /// `lab_store_files::open`. Writes nothing.
    ///
    /// # Errors
    /// The file isn't one of these files, or has an older or a newer schema, with its number, or
    /// the store failed, or memory ran out. The connection is handed back.
    pub fn open(alloc: Global, mut conn: Connection<S>) -> Result<Store<S>, Unopened<S>>
        requires at_rest { IsAtRest (state S.Store conn) }
        ensures answer { HasCleanDisk (state S.Store (left_by result)) → AnswersVerdict
            (state S.Store conn) (state S.Store (left_by result)) (ending_of result) }
        ensures owed { HasCleanDisk (state S.Store (left_by result)) →
            AnswersOwed schema_number is_whole (state S.Store conn).now (ending_of result) }
        ensures same { HasCleanDisk (state S.Store (left_by result)) → OnOk (ending_of result)
            (IsUnchanged (state S.Store conn) (state S.Store (left_by result))) }
        ensures passes { PassesBy (state S.Store conn) (state S.Store (left_by result)) }
    {
        match open(&mut conn) {
            Ok(()) => Ok(Store::new(alloc, conn)),
            Err(fault) => Err(Unopened { fault, conn }),
        }
    }
}
