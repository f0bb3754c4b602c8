//! Stores and desks over databases, and what they are asked. Calls stand in functions without
//! clauses, for any store of a database, so that the proof of a test doesn't carry what they
//! promise.
use crate::exchanges::{Exchange, tick};
use lab_desk::{Desk, Twins, twin};
use lab_forms_texts::{LabCode, MomentFault};
use lab_records_keeper::Keeper;
use lab_records_kept::{Need, Slice};
use lab_store::{FileFault, Store, Unopened};
use sqlite::{Alter, Connection};
use std::alloc::Global;

/// A store over a database that is opened as a file of laboratories.
///
/// # Errors
/// Those of opening a file, or a transaction is under way.
pub fn store<S: Alter>(alloc: Global, conn: Connection<S>) -> Result<Store<S>, Unopened<S>> {
    if !conn.is_autocommit() {
        let fault = FileFault::Storage;
        return Err(Unopened { fault, conn });
    }
    Store::open(alloc, conn)
}

/// A desk over a database; none where the database isn't opened, or memory ran out.
pub fn desk<S: Alter + Drop>(alloc: Global, conn: Connection<S>) -> Option<Desk<Store<S>>> {
    let store = store(alloc, conn).ok()?;
    Desk::new(alloc, store).ok()
}

/// The database of a desk.
pub fn database_of<S: Alter + Drop>(desk: Desk<Store<S>>) -> Connection<S> {
    desk.into_keeper().into_connection()
}

/// The part of a laboratory that is needed; `None` if no laboratory has the code, or it wasn't
/// read.
pub fn part<S: Alter + Drop>(
    alloc: Global,
    store: &mut Store<S>,
    code: &str,
    need: &Need,
) -> Option<Slice> {
    let code = LabCode::parse(alloc, code).ok()?;
    let found = store.load(&code, need).ok();
    drop(code);
    found?
}

/// Asks a desk. Whether it took the request.
///
/// # Errors
/// None: there is that moment.
pub fn ask<S: Alter + Drop>(
    desk: &mut Desk<Store<S>>,
    exchange: &Exchange,
) -> Result<bool, MomentFault> {
    let tick = tick(exchange)?;
    Ok(desk.handle(&tick, exchange.request))
}

/// Asks two desks the same by `twin`. Whether each took the request.
///
/// # Errors
/// None: there is that moment.
pub fn ask_both<S: Alter + Drop, T: Alter + Drop>(
    desk: &mut Desk<Store<S>>,
    other: &mut Desk<Store<T>>,
    exchange: &Exchange,
) -> Result<Twins, MomentFault> {
    let tick = tick(exchange)?;
    Ok(twin(desk, other, &tick, exchange.request))
}
