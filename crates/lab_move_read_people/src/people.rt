//! The persons of a laboratory.

ghost use Rattle.std.specs.Prelude.{◌≡◌, [], ◌∷◌, map, option_map, All, IfErr, IfOk, IfSome};
ghost use Rattle.sqlite_value.specs.declared.value.Value.TheVariants.{Int};
ghost use Rattle.std.specs.List.{list_all};
ghost use Rattle.lab_store_tables.specs.Meaning.{persons_of};
ghost use Rattle.lab_store_read_people.specs.Private.Heads.{ask_by, person_by, person_heads_of};
ghost use Rattle.lab_move_tables.specs.KeptLabs.{are_kept_persons};
ghost use Rattle.lab_store_read.specs.Cells.{storage};
ghost use Rattle.lab_store_read_people.specs.declared.heads.AskHead.{AskHead as AnyAsk};
ghost use Rattle.lab_move_tables.specs.Answering.{IsTaken};
ghost use Rattle.lab_move_tables.specs.Questions.{person_text};
ghost use Rattle.lab_move_tables.specs.Reading.{ReadsByWhere};
ghost use Rattle.lab_move_tables.specs.Shown.{persons_shown};
ghost use Rattle.lab_move_read_people.specs.Kept.{TriesBy, TriesOld};
ghost use Rattle.lab_move_read_people.specs.Readable.{HasAsker, HasOldPerson, HasOwner, HasPersons};
ghost use Rattle.lab_move_read_people.specs.Persons.{person_read};
ghost use Rattle.lab_move_read_people.specs.Private.Persons.{is_kept_ask, is_kept_head};

use crate::KeptFault;
use crate::cells::{flag_of, roles_of};
use crate::owners::theirs_at;
use crate::passwords::{ask_of_row, password_of_row};
use lab_forms_texts::Series;
use lab_move_tables::{Older, person_rows};
use lab_people_access::{Ask, Person};
use lab_store_read::cells::{small_of, text_of};
use lab_store_read::{ReadFault, Readable};
use lab_store_read_people::cells::moment_if;
use lab_store_read_people::{AskHead, PersonHead};
use sqlite::Row;
use std::alloc::Global;

// The person whom a row shows.
fn person_of_row(alloc: Global, older: Older, row: &Row) -> Result<PersonHead, ReadFault>
    ensures value { IfOk result (λ person. person ≡ person_read older row.now) }
    ensures fault { IfErr result (λ fault. fault ≡ storage → ¬ HasOldPerson row.now) }
{
    let roles = roles_of(row, 2)?;
    let retired = flag_of(row, 3)?;
    let failures = small_of(row, 4)?;
    let locked = moment_if(row, 5)?;
    let password = password_of_row(older, row)?;
    let ask = ask_of_row(older, row)?;
    let code = text_of(alloc, row, 0)?;
    let name = text_of(alloc, row, 1)?;
    Ok(PersonHead {
        code,
        name,
        roles,
        retired,
        failures,
        locked,
        password,
        ask,
    })
}

// The persons whom rows show.
fn persons_of_rows(alloc: Global, older: Older, rows: &[Row]) -> Result<Vec<PersonHead>, ReadFault>
    ensures value { IfOk result (λ made. made.items ≡ map (person_read older) rows.now) }
    ensures fault { IfErr result (λ fault. fault ≡ storage → ¬ All HasOldPerson rows.now) }
{
    let mut made = Vec::new(alloc);
    for row in rows {
        made.push(person_of_row(alloc, older, row)?)?;
    }
    Ok(made)
}

// The own rows of the persons of the laboratory with the id, in the order of their codes.
fn person_heads_at<D: Readable>(
    alloc: Global,
    conn: &mut D,
    older: Older,
    lab: i64,
) -> Result<Vec<PersonHead>, ReadFault>
    ensures { ReadsByWhere older (λ db t. IsTaken db (person_text older) (Int lab ∷ [])
        × All HasOldPerson (persons_shown older t lab))
        (λ t made. made.items ≡ person_heads_of t lab)
        (D.state conn.old) (D.state conn.new) result }
{
    let rows = person_rows(conn, older, lab)?;
    persons_of_rows(alloc, older, &rows)
}

// What was asked for, with the code of the person who asked.
fn ask_whole<D: Readable>(
    alloc: Global,
    conn: &mut D,
    lab: i64,
    ask: Option<AskHead>,
) -> Result<Option<Ask>, KeptFault>
    ensures { TriesOld (λ db t. IfSome ask (λ (one : AnyAsk). HasOwner db t one.asker))
        (λ t. is_kept_ask t lab ask) (λ t whole. whole ≡ option_map (ask_by t) ask)
        (D.state conn.old) (D.state conn.new) result }
{
    match ask {
        Some(ask) => {
            let asker = theirs_at(alloc, conn, lab, ask.asker)?;
            Ok(Some(Ask {
                asker,
                asked: ask.asked,
                first: ask.first,
            }))
        }
        None => Ok(None),
    }
}

// The person of the row.
fn person_whole<D: Readable>(
    alloc: Global,
    conn: &mut D,
    lab: i64,
    head: PersonHead,
) -> Result<Person, KeptFault>
    ensures { TriesOld (λ db t. HasAsker db t head) (λ t. is_kept_head t lab head)
        (λ t person. person ≡ person_by t head)
        (D.state conn.old) (D.state conn.new) result }
{
    let ask = ask_whole(alloc, conn, lab, head.ask)?;
    Ok(Person {
        code: head.code,
        name: head.name,
        roles: head.roles,
        retired: head.retired,
        failures: head.failures,
        locked: head.locked,
        password: head.password,
        ask,
    })
}

// The persons of the rows.
fn persons_whole<D: Readable>(
    alloc: Global,
    conn: &mut D,
    lab: i64,
    heads: Vec<PersonHead>,
) -> Result<Series<Person>, KeptFault>
    ensures { TriesOld (λ db t. All (HasAsker db t) heads.items)
        (λ t. list_all (is_kept_head t lab) heads.items)
        (λ t made. made ≡ map (person_by t) heads.items)
        (D.state conn.old) (D.state conn.new) result }
{
    let mut made = Series::new(alloc);
    for head in heads {
        let person = person_whole(alloc, conn, lab, head)?;
        made.push(person)?;
    }
    Ok(made)
}

/// Returns the persons of the laboratory with the id, in the order of their codes.
///
/// # Errors
/// They aren't well kept, the store failed, a row isn't one that a program could have written, or
/// memory ran out.
pub fn persons_at<D: Readable>(
    alloc: Global,
    conn: &mut D,
    older: Older,
    lab: i64,
) -> Result<Series<Person>, KeptFault>
    ensures { TriesBy older (HasPersons older lab) (λ t. are_kept_persons t lab)
        (λ t made. made ≡ persons_of t lab)
        (D.state conn.old) (D.state conn.new) result }
{
    let heads = person_heads_at(alloc, conn, older, lab)?;
    persons_whole(alloc, conn, lab, heads)
}
