//! The end of a task over a file: its connection is closed, and nothing else is done with it.

ghost use Rattle.std.specs.Prelude.{◌≡◌, IfSome, Result};
ghost use Rattle.sqlite.specs.declared.error.Error.{Error as CloseError};
ghost use Rattle.lab_program_opening.specs.Ends.{WasClosed};

use sqlite::{Alter, Connection, Error, FileFrom, FileStore, MemStore, Start};
use std::marker::Model;

/// What can be closed.
pub trait Closable {
    /// What closing comes to, by how it ended.
    ghost closes: { Self → Result (Unit {0}) CloseError → Type 0 };

    /// Closes the connection: what was committed then lies in the file alone. If closing fails, the
    /// file and its log hold it together, and nothing is lost.
    fn close_whole(self) -> Result<(), Error>
        ensures { closes self result };
}

impl<S: Start> Closable for Connection<FileStore<FileFrom<S>>> {
    ghost use Rattle.lab_program_opening.specs.Ends.{Closes};

    ghost closes = { λ conn ending. Closes conn ending };

    fn close_whole(self) -> Result<(), Error> {
        match self.close_files() {
            Ok(files) => {
                drop(files);
                Ok(())
            }
            Err((fault, left)) => {
                drop(left.close());
                Err(fault)
            }
        }
    }
}

impl Closable for Connection<MemStore> {
    ghost closes = { λ _ _. Unit {0} };

    fn close_whole(self) -> Result<(), Error> {
        Ok(())
    }
}

/// A connection after the last statement of a task: it is closed, and nothing else is done with
/// it. It isn't `Drop`, so that no task forgets to close it. A contract sees the connection.
pub struct Finished<S: Alter> {
    conn: Connection<S>,
}

impl<S: Alter> Model for Finished<S> {
    ghost use Rattle.sqlite.specs.Held.{Held, held_code};

    ghost Value = { Held S };

    ghost coded = { held_code S.code };

    ghost view = { λ finished. finished.conn };
}

impl<S: Alter> Finished<S> {
    /// Takes a connection after the last statement of a task.
    pub fn new(conn: Connection<S>) -> Finished<S>
        ensures { result ≡ conn }
    {
        Finished { conn }
    }

    /// Closes the connection.
    ///
    /// # Errors
    /// The store failed: the file and its log hold together what was committed.
    pub fn close(self) -> Result<(), Error>
    where
        Connection<S>: Closable,
        ensures { ⟦<Connection<S> as Closable>⟧.closes self result }
    {
        let Finished { conn } = self;
        conn.close_whole()
    }
}

impl<S: Alter + Drop> Finished<S> {
    /// Lets a connection go to a file that others cut, since nothing more is to be written there.
    pub fn let_go(self) {
        let Finished { conn: _ } = self;
    }
}

/// How a task over a file ended, and its connection, if there is one to be closed.
pub struct Ended<T, S: Alter> {
    /// How the task ended.
    pub ending: T,
    /// What is left to be closed.
    pub finished: Option<Finished<S>>,
}

impl<T, S: Alter> Ended<T, S> {
    /// Closes the connection, and returns how the task ended. A fault of the close is passed over,
    /// since nothing is lost by it.
    pub fn close(self) -> T
    where
        Connection<S>: Closable,
        ensures ending { result ≡ self.ending }
        ensures closed { IfSome self.finished
            (WasClosed ⟦<Connection<S> as Closable>⟧.closes) }
    {
        let Ended { ending, finished } = self;
        match finished {
            Some(finished) => {
                let _ = finished.close();
                ending
            }
            None => ending,
        }
    }
}
