//! A file over disks: what is done with it, once it is opened. One function alone knows the disks;
//! each other one is for any store of a database.
use crate::images::Pair;
use lab_desk::Desk;
use lab_forms_texts::OutOfMemory;
use lab_records_keeper::{Keeper, PlacingFault};
use lab_records_kept::Newborn;
use lab_store::{Store, Unopened};
use lab_store_files::FileFault;
use lab_tests_rows::{Exchange, ask, database_of, fill_each, make, said, store};
use sqlite::{Alter, Connection, FileStore, Options};
use sqlite_disk::{Fuse, Memory};
use std::alloc::Global;

// A few pages are kept in memory alone, and the log is copied into the file as soon as it has a
// few: so that a request reads and writes both.
const NARROW: Options = Options {
    cache_pages: 16,
    spill_pages: 4,
    checkpoint_frames: 4,
    seed: 5,
};

/// What is done with a file.
#[derive(Clone, Copy)]
pub(crate) enum Task<'a> {
    /// The tables of laboratories are made.
    Make,
    /// Statements are run, one text after the other, with ids of that kind.
    Fill {
        /// The statements.
        texts: &'a [&'a str],
        /// The kind of ids.
        ids: &'a str,
    },
    /// What the tables of laboratories say.
    Tell,
    /// A laboratory is founded.
    Found(&'a Newborn),
    /// A desk over the laboratories is asked.
    Ask(&'a Exchange),
}

/// What came of it.
#[derive(Drop)]
pub(crate) enum Outcome {
    /// The file was not opened.
    Unopened,
    /// It was opened, and isn't a file of laboratories.
    NotOurs,
    /// The store refused to make it, or to found a laboratory in it.
    Refused,
    /// What is to be made or founded is there already.
    There,
    /// The task failed otherwise, and not by a reply.
    Failed,
    /// It was made, or filled, or a laboratory was founded in it.
    Filled,
    /// The digest of what the tables say.
    Told([u8; 64]),
    /// The reply of the desk.
    Replied(Vec<u8>),
}

fn of_making<S: Alter>(conn: &mut Connection<S>) -> Outcome {
    match make(conn) {
        Ok(()) => Outcome::Filled,
        Err(FileFault::Storage) => Outcome::Refused,
        Err(FileFault::NotEmpty) => Outcome::There,
        Err(_) => Outcome::Failed,
    }
}

fn of_filling<S: Alter>(
    alloc: Global,
    conn: &mut Connection<S>,
    texts: &[&str],
    ids: &str,
) -> Outcome {
    match fill_each(alloc, conn, texts, ids) {
        Ok(()) => Outcome::Filled,
        Err(_) => Outcome::Failed,
    }
}

fn of_telling<S: Alter>(alloc: Global, conn: &mut Connection<S>) -> Outcome {
    match said(alloc, conn) {
        Ok(said) => Outcome::Told(said),
        Err(_) => Outcome::Failed,
    }
}

// What came of a file that isn't opened as one of laboratories.
fn of_refusal(fault: FileFault) -> Outcome {
    match fault {
        FileFault::NotADeskFile => Outcome::NotOurs,
        _ => Outcome::Unopened,
    }
}

// The reply of a desk.
fn reply_of<S: Alter + Drop>(
    alloc: Global,
    desk: &mut Desk<Store<S>>,
    exchange: &Exchange,
) -> Outcome {
    if ask(desk, exchange).is_err() {
        return Outcome::Failed;
    }
    match desk.reply().to_vec(alloc) {
        Ok(reply) => Outcome::Replied(reply),
        Err(_) => Outcome::Failed,
    }
}

// Asks a desk over the store; none where there was no memory for one.
fn asked<S: Alter + Drop>(
    alloc: Global,
    store: Store<S>,
    exchange: &Exchange,
    outcome: &mut Outcome,
) -> Option<S> {
    let mut desk = Desk::new(alloc, store).ok()?;
    *outcome = reply_of(alloc, &mut desk, exchange);
    Some(database_of(desk).into_store())
}

fn copy_of(newborn: &Newborn) -> Result<Newborn, OutOfMemory> {
    Ok(Newborn {
        moment: newborn.moment,
        code: newborn.code.copy()?,
        name: newborn.name.copy()?,
        first: newborn.first.copy()?,
        second: newborn.second.copy()?,
        third: newborn.third.copy()?,
    })
}

fn of_founding<S: Alter>(store: &mut Store<S>, newborn: Newborn) -> Outcome {
    match store.found(newborn) {
        Ok(()) => Outcome::Filled,
        Err(PlacingFault::LabExists) => Outcome::There,
        Err(PlacingFault::Storage) => Outcome::Refused,
        Err(PlacingFault::Memory) => Outcome::Failed,
    }
}

// Founds the laboratory in the store; none where there was no memory for one.
fn founded<S: Alter + Drop>(
    mut store: Store<S>,
    newborn: &Newborn,
    outcome: &mut Outcome,
) -> Option<S> {
    let newborn = copy_of(newborn).ok()?;
    *outcome = of_founding(&mut store, newborn);
    Some(store.into_connection().into_store())
}

// Does what is asked of laboratories, over a database in which they are kept.
fn worked_on_ours<S: Alter + Drop>(
    alloc: Global,
    conn: Connection<S>,
    task: Task<'_>,
    outcome: &mut Outcome,
) -> Option<S> {
    let store = match store(alloc, conn) {
        Ok(store) => store,
        Err(Unopened { fault, conn }) => {
            *outcome = of_refusal(fault);
            return Some(conn.into_store());
        }
    };
    match task {
        Task::Ask(exchange) => asked(alloc, store, exchange, outcome),
        Task::Found(newborn) => founded(store, newborn, outcome),
        Task::Make | Task::Fill { .. } | Task::Tell => {
            let mut conn = store.into_connection();
            *outcome = of_telling(alloc, &mut conn);
            Some(conn.into_store())
        }
    }
}

// Does the task over a database; none where there was no memory for it.
fn worked<S: Alter + Drop>(
    alloc: Global,
    mut conn: Connection<S>,
    task: Task<'_>,
    outcome: &mut Outcome,
) -> Option<S> {
    match task {
        Task::Make => {
            *outcome = of_making(&mut conn);
            Some(conn.into_store())
        }
        Task::Fill { texts, ids } => {
            *outcome = of_filling(alloc, &mut conn, texts, ids);
            Some(conn.into_store())
        }
        Task::Tell | Task::Found(_) | Task::Ask(_) => worked_on_ours(alloc, conn, task, outcome),
    }
}

// The disks of a file.
fn closed(store: FileStore<Fuse<Memory>>) -> Pair {
    store.close()
}

/// Does the task over the file on the disks, which is opened for it, and gives the disks back; or
/// memory ran out. It says what came of it: a file that isn't opened is `Unopened`.
pub(crate) fn work(
    alloc: Global,
    disks: Pair,
    task: Task<'_>,
    outcome: &mut Outcome,
) -> Option<Pair> {
    *outcome = Outcome::Unopened;
    if !disks.may_be_used() {
        return Some(disks);
    }
    match Connection::open_files(alloc, disks, NARROW) {
        Ok(conn) => {
            let store = worked(alloc, conn, task, outcome)?;
            Some(closed(store))
        }
        Err((_, left)) => Some(left.into_files()),
    }
}
