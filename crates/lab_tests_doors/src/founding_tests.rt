//! A founding that is refused. Calls stand in functions without clauses, so that the proof of the
//! test doesn't carry what a connection holds after each.
use lab_forms::{Moment, Text, TextRule};
use lab_people::{Person, Roles};
use lab_store::{FileFault, Newborn, PlacingFault, Tables, create, found};
use sqlite::{Connection, MemStore};
use std::alloc::Global;
use std::process::Abort;

type File = Tables<MemStore>;

// A code or a name.
fn text<R: TextRule>(rt: &(impl Abort + AllocGlobal), text: &str) -> Text<R> {
    Text::parse(rt.alloc(), text).expect(rt, "a text that its rule admits")
}

fn person(rt: &(impl Abort + AllocGlobal), code: &str) -> Person {
    Person::newcomer(text(rt, code), text(rt, "Somebody"), Roles::none())
}

// A laboratory of which two founders have one code.
fn newborn(rt: &(impl Abort + AllocGlobal)) -> Newborn {
    Newborn {
        moment: Moment::from_seconds(500).expect(rt, "a moment"),
        code: text(rt, "aqua"),
        name: text(rt, "Aqua Lab"),
        first: person(rt, "ann"),
        second: person(rt, "dan"),
        third: person(rt, "ann"),
    }
}

fn database(rt: &(impl Abort + AllocGlobal)) -> File {
    let conn = Connection::open_in_memory(rt.alloc()).expect(rt, "a database");
    Tables { conn }
}

fn made(tables: &mut File) -> Result<(), FileFault> {
    if !tables.conn.is_autocommit() {
        return Err(FileFault::Storage);
    }
    create(&mut tables.conn)
}

fn founded(alloc: Global, tables: &mut File, newborn: Newborn) -> Result<(), PlacingFault> {
    if !tables.conn.is_autocommit() {
        drop(newborn);
        return Err(PlacingFault::Memory);
    }
    found(alloc, tables, newborn)
}

#[test]
fn founders_of_one_code_are_refused(rt: HostRuntime) {
    let newborn = newborn(&rt);
    let mut tables = database(&rt);
    let made = made(&mut tables);
    let founded = founded(rt.alloc(), &mut tables, newborn);
    drop(tables);
    assert_eq!(rt; (made, founded), (Ok(()), Err(PlacingFault::Storage)));
}
