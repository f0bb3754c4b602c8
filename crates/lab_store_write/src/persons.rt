//! Persons, with their accounts.

ghost use Rattle.std.specs.Prelude.{option_map};
ghost use Rattle.lab_store_tables.specs.Changes.{IsNamedIfAny, AddsPerson, SetsPerson, person_row_of, set_person as with_row};
ghost use Rattle.lab_store_write.specs.Calls.{AnswersTrying, WritesTrying, Finds, MadeFrom};
ghost use Rattle.lab_store_write.specs.Private.Calls.{Becomes};
ghost use Rattle.lab_store_write.specs.Givers.{Knows};
ghost use Rattle.lab_store_write.specs.Ids.{row_id};
ghost use Rattle.lab_store_write.specs.Private.Persons.{asker_in, with_person};
ghost use Rattle.lab_store_write.specs.Statements.{adding_person, setting_person};
ghost use Rattle.lab_store_write.specs.Tried.{Only, TriedFrom, TriesIfAny, TriesToAddPerson, TriesToSetPerson};

use crate::passwords::{
    ask_cells, made_or_null, password_cells, roles_sum, rounds_or_null, salt_or_null,
};
use crate::statements::run;
use crate::values::{flag_value, id_or_null, id_value, moment_or_null, small_value, text_value};
use crate::{Giver, RowId, Writable, person_id_by};
use lab_people_access::{Ask, Person};
use sqlite::Error;

// The person who asked for a one-time word, if somebody did.
fn asker_if_any<W: Writable>(
    tx: &mut W,
    lab: RowId,
    giver: Option<Giver<'_>>,
    ask: &Option<Ask>,
) -> Result<Option<RowId>, Error>
    ensures { AnswersTrying (TriesIfAny lab.id (option_map asker_in ask.now)) W.lender W.state
        (λ one. Finds (λ t. Knows lab.id giver.entry t →
        IsNamedIfAny t lab.id (option_map asker_in ask.now) (option_map row_id one)))
        tx.old tx.new result }
{
    match ask {
        Some(ask) => {
            let asker = person_id_by(tx, lab, giver, &ask.asker)?;
            Ok(Some(asker))
        }
        None => Ok(None),
    }
}

// Adds the row.
fn insert_person<W: Writable>(
    tx: &mut W,
    lab: RowId,
    asker: Option<RowId>,
    person: &Person,
) -> Result<usize, Error>
    ensures { WritesTrying (Only (adding_person lab.id (option_map row_id asker) person.now))
        W.lender W.state
        (Becomes (with_person lab.id (option_map row_id asker) person.now)) tx.old tx.new result }
{
    let code = person.code.as_str();
    let name = person.name.as_str();
    let roles = roles_sum(person.roles);
    let password = password_cells(&person.password);
    let ask = ask_cells(asker, &person.ask);
    let changed = password.changed;
    let asked = ask.asked;
    run(
        tx,
        "INSERT INTO persons (lab, code, name, roles, retired, failures, locked, kind, salt, rounds, bytes, salt2, rounds2, bytes2, changed, asker, asked, ask_salt, ask_rounds, ask_bytes) VALUES (?1, ?2, ?3, ?4, ?5, ?6, ?7, ?8, ?9, ?10, ?11, ?12, ?13, ?14, ?15, ?16, ?17, ?18, ?19, ?20)",
        &[
            id_value(lab),
            text_value(code),
            text_value(name),
            small_value(roles),
            flag_value(person.retired),
            small_value(person.failures),
            moment_or_null(person.locked),
            small_value(password.kind),
            salt_or_null(&password.first),
            rounds_or_null(&password.first),
            made_or_null(&password.first),
            salt_or_null(&password.second),
            rounds_or_null(&password.second),
            made_or_null(&password.second),
            moment_or_null(changed),
            id_or_null(ask.asker),
            moment_or_null(asked),
            salt_or_null(&ask.first),
            rounds_or_null(&ask.first),
            made_or_null(&ask.first),
        ],
    )
}

/// Adds a person.
///
/// # Errors
/// The errors of `Writable`, or nobody has the code of the person who asked for a one-time word.
pub fn add_person<W: Writable>(
    tx: &mut W,
    lab: RowId,
    giver: Option<Giver<'_>>,
    person: &Person,
) -> Result<(), Error>
    ensures { WritesTrying
        (TriedFrom (Knows lab.id giver.entry) (TriesToAddPerson lab.id person.now))
        W.lender W.state
        (MadeFrom (Knows lab.id giver.entry) (AddsPerson lab.id person.now)) tx.old tx.new result }
{
    let asker = asker_if_any(tx, lab, giver, &person.ask)?;
    insert_person(tx, lab, asker, person)?;
    Ok(())
}

// Sets the row.
fn update_person<W: Writable>(
    tx: &mut W,
    id: RowId,
    lab: RowId,
    asker: Option<RowId>,
    person: &Person,
) -> Result<usize, Error>
    ensures { WritesTrying (Only (setting_person lab.id id.id (option_map row_id asker) person.now))
        W.lender W.state
        (Becomes (with_row (person_row_of lab.id id.id (option_map row_id asker) person.now)))
        tx.old tx.new result }
{
    let code = person.code.as_str();
    let name = person.name.as_str();
    let roles = roles_sum(person.roles);
    let password = password_cells(&person.password);
    let ask = ask_cells(asker, &person.ask);
    let changed = password.changed;
    let asked = ask.asked;
    run(
        tx,
        "UPDATE persons SET lab = ?2, code = ?3, name = ?4, roles = ?5, retired = ?6, failures = ?7, locked = ?8, kind = ?9, salt = ?10, rounds = ?11, bytes = ?12, salt2 = ?13, rounds2 = ?14, bytes2 = ?15, changed = ?16, asker = ?17, asked = ?18, ask_salt = ?19, ask_rounds = ?20, ask_bytes = ?21 WHERE id = ?1",
        &[
            id_value(id),
            id_value(lab),
            text_value(code),
            text_value(name),
            small_value(roles),
            flag_value(person.retired),
            small_value(person.failures),
            moment_or_null(person.locked),
            small_value(password.kind),
            salt_or_null(&password.first),
            rounds_or_null(&password.first),
            made_or_null(&password.first),
            salt_or_null(&password.second),
            rounds_or_null(&password.second),
            made_or_null(&password.second),
            moment_or_null(changed),
            id_or_null(ask.asker),
            moment_or_null(asked),
            salt_or_null(&ask.first),
            rounds_or_null(&ask.first),
            made_or_null(&ask.first),
        ],
    )
}

/// Sets the row of a person, whom the code names.
///
/// # Errors
/// The errors of `Writable`, or nobody has that code, or the code of the person who asked for a
/// one-time word.
pub fn set_person<W: Writable>(
    tx: &mut W,
    lab: RowId,
    giver: Option<Giver<'_>>,
    person: &Person,
) -> Result<(), Error>
    ensures { WritesTrying
        (TriedFrom (Knows lab.id giver.entry) (TriesToSetPerson lab.id person.now))
        W.lender W.state
        (MadeFrom (Knows lab.id giver.entry) (SetsPerson lab.id person.now)) tx.old tx.new result }
{
    let id = person_id_by(tx, lab, giver, &person.code)?;
    let asker = asker_if_any(tx, lab, giver, &person.ask)?;
    update_person(tx, id, lab, asker, person)?;
    Ok(())
}
