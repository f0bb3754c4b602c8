//! Persons, with their accounts.

ghost use Rattle.std.specs.Prelude.{◌≡◌, [], ◌∷◌, ◌++◌, map, option_map, slice_get, All, IfOk, IfErr, IfSome};
ghost use Rattle.lab_people_access.specs.Persons.{person_of};
ghost use Rattle.lab_store_tables.specs.Meaning.{persons_of};
ghost use Rattle.lab_store_read.specs.Causes.{HasItsCause, HasFirst};
ghost use Rattle.lab_store_read.specs.Cells.{storage};
ghost use Rattle.lab_store_read.specs.Reads.{Reads, MayRead};
ghost use Rattle.lab_store_read_people.specs.Private.Heads.{ask_by, person_by, person_heads_of};
ghost use Rattle.lab_store_read_people.specs.PersonsReadable.{HasPerson, HasCode, HasAsker, HasWholePerson};
ghost use Rattle.lab_store_read_people.specs.PersonsShown.{person_shown_by, persons_shown, person_read};

use crate::cells::moment_if;
use crate::heads::{AskHead, PersonHead};
use crate::passwords::{ask_of_row, password_of_row, roles_of};
use lab_forms_texts::PersonCode;
use lab_people_access::{Ask, Person};
use lab_store_read::asking::{rows_by_code, rows_by_one};
use lab_store_read::cells::{flag_of, small_of, text_of};
use lab_store_read::{ReadFault, Readable, code_at};
use sqlite::Row;
use std::alloc::Global;

// The row of the person with the code, in the laboratory with the id.
fn person_rows<D: Readable>(conn: &mut D, lab: i64, code: &str) -> Result<Vec<Row>, ReadFault>
    ensures reads { Reads (λ t rows. rows.items ≡ person_shown_by t lab code.now)
        (D.state conn.old) (D.state conn.new) result }
    ensures cause { HasItsCause (λ t. Unit {0}) (D.state conn.old) (D.state conn.new) result }
{
    rows_by_code(
        conn,
        "SELECT code, name, roles, retired, failures, locked, kind, salt, rounds, bytes, salt2, rounds2, bytes2, changed, asker, asked, ask_salt, ask_rounds, ask_bytes FROM persons WHERE lab = ?1 AND code = ?2",
        lab,
        code,
    )
}

// The rows of the persons of the laboratory with the id, in the order of their codes.
fn persons_rows<D: Readable>(conn: &mut D, lab: i64) -> Result<Vec<Row>, ReadFault>
    ensures reads { Reads (λ t rows. rows.items ≡ persons_shown t lab)
        (D.state conn.old) (D.state conn.new) result }
    ensures cause { HasItsCause (λ t. Unit {0}) (D.state conn.old) (D.state conn.new) result }
{
    rows_by_one(
        conn,
        "SELECT code, name, roles, retired, failures, locked, kind, salt, rounds, bytes, salt2, rounds2, bytes2, changed, asker, asked, ask_salt, ask_rounds, ask_bytes FROM persons WHERE lab = ?1 ORDER BY code",
        lab,
    )
}

// The person whom a row shows.
fn person_of_row(alloc: Global, row: &Row) -> Result<PersonHead, ReadFault>
    ensures value { IfOk result (λ person. person ≡ person_read row.now) }
    ensures fault { IfErr result (λ fault. fault ≡ storage → ¬ HasPerson row.now) }
{
    let roles = roles_of(small_of(row, 2)?);
    let retired = flag_of(row, 3)?;
    let failures = small_of(row, 4)?;
    let locked = moment_if(row, 5)?;
    let password = password_of_row(row)?;
    let ask = ask_of_row(row)?;
    let code = text_of(alloc, row, 0)?;
    let name = text_of(alloc, row, 1)?;
    Ok(PersonHead {
        code,
        name,
        roles,
        retired,
        failures,
        locked,
        password,
        ask,
    })
}

// The person whom the first row shows.
fn first_person(alloc: Global, rows: &[Row]) -> Result<Option<PersonHead>, ReadFault>
    ensures value { IfOk result (λ person.
        person ≡ option_map person_read (slice_get rows.now 0)) }
    ensures fault { IfErr result (λ fault. fault ≡ storage → ¬ HasFirst HasPerson rows.now) }
{
    match rows.first() {
        Some(row) => Ok(Some(person_of_row(alloc, row)?)),
        None => Ok(None),
    }
}

// The persons whom rows show.
fn persons_of_rows(alloc: Global, rows: &[Row]) -> Result<Vec<PersonHead>, ReadFault>
    ensures value { IfOk result (λ made. made.items ≡ map person_read rows.now) }
    ensures fault { IfErr result (λ fault. fault ≡ storage → ¬ All HasPerson rows.now) }
{
    let mut made = Vec::new(alloc);
    for row in rows {
        made.push(person_of_row(alloc, row)?)?;
    }
    Ok(made)
}

// What was asked for, with the code of the person who asked.
fn ask_whole<D: Readable>(
    alloc: Global,
    conn: &mut D,
    ask: Option<AskHead>,
) -> Result<Option<Ask>, ReadFault>
    ensures reads { MayRead (λ t whole. whole ≡ option_map (ask_by t) ask)
        (D.state conn.old) (D.state conn.new) result }
    ensures cause { HasItsCause (λ t. IfSome ask (HasCode t))
        (D.state conn.old) (D.state conn.new) result }
{
    match ask {
        Some(ask) => {
            let asker = code_at(alloc, conn, ask.asker)?;
            Ok(Some(Ask {
                asker,
                asked: ask.asked,
                first: ask.first,
            }))
        }
        None => Ok(None),
    }
}

// The person of the row.
fn person_whole<D: Readable>(
    alloc: Global,
    conn: &mut D,
    head: PersonHead,
) -> Result<Person, ReadFault>
    ensures reads { MayRead (λ t person. person ≡ person_by t head)
        (D.state conn.old) (D.state conn.new) result }
    ensures cause { HasItsCause (λ t. HasAsker t head)
        (D.state conn.old) (D.state conn.new) result }
{
    let ask = ask_whole(alloc, conn, head.ask)?;
    Ok(Person {
        code: head.code,
        name: head.name,
        roles: head.roles,
        retired: head.retired,
        failures: head.failures,
        locked: head.locked,
        password: head.password,
        ask,
    })
}

// The person of the row, if there is a row.
fn person_if<D: Readable>(
    alloc: Global,
    conn: &mut D,
    head: Option<PersonHead>,
) -> Result<Option<Person>, ReadFault>
    ensures reads { MayRead (λ t person. person ≡ option_map (person_by t) head)
        (D.state conn.old) (D.state conn.new) result }
    ensures cause { HasItsCause (λ t. IfSome head (HasAsker t))
        (D.state conn.old) (D.state conn.new) result }
{
    match head {
        Some(head) => {
            let person = person_whole(alloc, conn, head)?;
            Ok(Some(person))
        }
        None => Ok(None),
    }
}

// Adds the person of the row after the others.
fn add_person<D: Readable>(
    alloc: Global,
    conn: &mut D,
    made: &mut Vec<Person>,
    head: PersonHead,
) -> Result<(), ReadFault>
    ensures reads { MayRead (λ t _. made.new.items ≡ made.old.items ++ person_by t head ∷ [])
        (D.state conn.old) (D.state conn.new) result }
    ensures cause { HasItsCause (λ t. HasAsker t head)
        (D.state conn.old) (D.state conn.new) result }
{
    let person = person_whole(alloc, conn, head)?;
    made.push(person)?;
    Ok(())
}

// Adds the persons of the rows after the others.
fn add_persons<D: Readable>(
    alloc: Global,
    conn: &mut D,
    made: &mut Vec<Person>,
    heads: Vec<PersonHead>,
) -> Result<(), ReadFault>
    ensures reads { MayRead
        (λ t _. made.new.items ≡ made.old.items ++ map (person_by t) heads.items)
        (D.state conn.old) (D.state conn.new) result }
    ensures cause { HasItsCause (λ t. All (HasAsker t) heads.items)
        (D.state conn.old) (D.state conn.new) result }
{
    for head in heads {
        add_person(alloc, conn, made, head)?;
    }
    Ok(())
}

// The own rows of the persons of the laboratory with the id, in the order of their codes.
fn person_heads_at<D: Readable>(
    alloc: Global,
    conn: &mut D,
    lab: i64,
) -> Result<Vec<PersonHead>, ReadFault>
    ensures reads { Reads (λ t made. made.items ≡ person_heads_of t lab)
        (D.state conn.old) (D.state conn.new) result }
    ensures cause { HasItsCause (λ t. All HasPerson (persons_shown t lab))
        (D.state conn.old) (D.state conn.new) result }
{
    let rows = persons_rows(conn, lab)?;
    persons_of_rows(alloc, &rows)
}

/// Returns the person who has or had the code, in the laboratory with the id.
///
/// # Errors
/// The store failed, a row isn't one that this program could have written, or memory ran out.
pub fn person_at<D: Readable>(
    alloc: Global,
    conn: &mut D,
    lab: i64,
    code: &PersonCode,
) -> Result<Option<Person>, ReadFault>
    ensures reads { Reads (λ t person. person ≡ person_of (persons_of t lab) code.now)
        (D.state conn.old) (D.state conn.new) result }
    ensures cause { HasItsCause (λ t. HasFirst (HasWholePerson t) (person_shown_by t lab code.now))
        (D.state conn.old) (D.state conn.new) result }
{
    let rows = person_rows(conn, lab, code.as_str())?;
    let head = first_person(alloc, &rows)?;
    person_if(alloc, conn, head)
}

/// Returns the persons of the laboratory with the id, in the order of their codes.
///
/// # Errors
/// The store failed, a row isn't one that this program could have written, or memory ran out.
pub fn persons_at<D: Readable>(
    alloc: Global,
    conn: &mut D,
    lab: i64,
) -> Result<Vec<Person>, ReadFault>
    ensures reads { Reads (λ t made. made.items ≡ persons_of t lab)
        (D.state conn.old) (D.state conn.new) result }
    ensures cause { HasItsCause (λ t. All (HasWholePerson t) (persons_shown t lab))
        (D.state conn.old) (D.state conn.new) result }
{
    let heads = person_heads_at(alloc, conn, lab)?;
    let mut made = Vec::new(alloc);
    add_persons(alloc, conn, &mut made, heads)?;
    Ok(made)
}
