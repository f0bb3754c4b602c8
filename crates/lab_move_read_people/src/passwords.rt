//! What is kept of a password, and what was asked for, from the columns of a person's row.

ghost use Rattle.std.specs.Prelude.{◌≡◌, None, IfErr, IfOk, unwrap_or};
ghost use Rattle.sqlite_value.specs.Order.{column, bytes};
ghost use Rattle.lab_people_access.specs.declared.passwords.Password.TheVariants.{Unset, Chosen, OneTime};
ghost use Rattle.lab_store_tables.specs.Rows.{number_in, optional_in};
ghost use Rattle.lab_store_tables.specs.Columns.{verifier_in, password_in};
ghost use Rattle.lab_store_read.specs.Cells.{storage};
ghost use Rattle.lab_store_read_people.specs.Heads.{ask_head};
ghost use Rattle.lab_move_read_people.specs.Private.Cells.{are_null, has_no_password};
ghost use Rattle.lab_move_read_people.specs.Persons.{password_cells, ask_cells, ask_rounds_in};
ghost use Rattle.lab_move_read_people.specs.Private.Persons.{ask_by_row};
ghost use Rattle.lab_move_read_people.specs.Readable.{HasCell, HasOldAsk, HasOldAsked, HasOldChosen, HasOldOneTime, HasOldPassword, HasOldVerifier, HasUnasked, HasUnset};

use crate::cells::is_null;
use lab_move_tables::Older;
use lab_people_access::{OLD_ROUNDS, Password};
use lab_seal_hashes::Verifier;
use lab_store_read::cells::{id_if, small_of};
use lab_store_read::{BadStore, ReadFault};
use lab_store_read_people::AskHead;
use lab_store_read_people::cells::{bytes_due, moment_due, salt_due, small_due};
use sqlite::Row;

// The verifier whose salt and bytes stand in two columns; every verifier of a file of schema 2 has
// the old rounds.
fn verifier_of(row: &Row, salt: usize, made: usize) -> Result<Verifier, ReadFault>
    ensures value { IfOk result (λ verifier. verifier
        ≡ verifier_in (optional_in bytes (column row.now salt))
        (optional_in number_in (column row.now 8))
        (optional_in bytes (column row.now made))) }
    ensures fault { IfErr result (λ fault. fault ≡ storage → ¬ HasOldVerifier row.now salt made) }
{
    let salt = salt_due(row, salt)?;
    let rounds = small_due(row, 8)?;
    let made = bytes_due(row, made)?;
    if rounds != OLD_ROUNDS {
        return Err(ReadFault::Refused(BadStore));
    }
    Ok(Verifier::from_parts(salt, rounds, made))
}

// Whether nothing stands in two columns.
fn are_null(row: &Row, first: usize, second: usize) -> Result<bool, ReadFault>
    ensures value { IfOk result (λ empty. empty ≡ are_null first second row.now) }
    ensures fault { IfErr result (λ fault. fault ≡ storage → ¬ (HasCell first row.now × HasCell second row.now)) }
{
    if is_null(row, first)? {
        is_null(row, second)
    } else {
        Ok(false)
    }
}

// A password that was chosen. It has one verifier.
fn chosen_of_row(row: &Row) -> Result<Password, ReadFault>
    ensures value { IfOk result (λ password. password
        ≡ Chosen (verifier_in (optional_in bytes (column row.now 7))
        (optional_in number_in (column row.now 8)) (optional_in bytes (column row.now 9)))
        (unwrap_or (optional_in number_in (column row.now 12)) 0)) }
    ensures fault { IfErr result (λ fault. fault ≡ storage → ¬ HasOldChosen row.now) }
{
    if !are_null(row, 10, 11)? {
        return Err(ReadFault::Refused(BadStore));
    }
    let verifier = verifier_of(row, 7, 9)?;
    let changed = moment_due(row, 12)?;
    Ok(Password::Chosen { verifier, changed })
}

// The second verifier of a one-time word, which has a salt of its own.
#[tactic(auto, using(crate::proofs::Beside::beside_filled))]
fn second_of_row(older: Older, row: &Row) -> Result<Verifier, ReadFault>
    ensures value { let cells = password_cells older row.now in IfOk result
        (λ verifier. verifier ≡ verifier_in cells.salt2 cells.rounds2 cells.bytes2) }
    ensures fault { IfErr result (λ fault. fault ≡ storage → ¬ HasOldVerifier row.now 10 11) }
{
    if is_null(row, 10)? {
        return Err(ReadFault::Refused(BadStore));
    }
    match older {
        Older::Two => verifier_of(row, 10, 11),
    }
}

// A one-time word.
fn one_time_of_row(older: Older, row: &Row) -> Result<Password, ReadFault>
    ensures value { let cells = password_cells older row.now in IfOk result (λ password. password
        ≡ OneTime (verifier_in cells.salt cells.rounds cells.bytes)
        (verifier_in cells.salt2 cells.rounds2 cells.bytes2) (unwrap_or cells.changed 0)) }
    ensures fault { IfErr result (λ fault. fault ≡ storage → ¬ HasOldOneTime row.now) }
{
    let first = verifier_of(row, 7, 9)?;
    let second = second_of_row(older, row)?;
    let confirmed = moment_due(row, 12)?;
    Ok(Password::OneTime {
        first,
        second,
        confirmed,
    })
}

// Whether all columns of a password but its kind are empty.
fn has_no_password(row: &Row) -> Result<bool, ReadFault>
    ensures value { IfOk result (λ empty. empty ≡ has_no_password row.now) }
    ensures fault { IfErr result (λ fault. fault ≡ storage → ¬ (HasCell 7 row.now × HasCell 8 row.now × HasCell 9 row.now × HasCell 10 row.now
        × HasCell 11 row.now × HasCell 12 row.now)) }
{
    if !are_null(row, 7, 8)? {
        return Ok(false);
    }
    if !are_null(row, 9, 10)? {
        return Ok(false);
    }
    are_null(row, 11, 12)
}

// No password.
fn unset_of_row(row: &Row) -> Result<Password, ReadFault>
    ensures value { IfOk result (λ password. password ≡ Unset) }
    ensures fault { IfErr result (λ fault. fault ≡ storage → ¬ HasUnset row.now) }
{
    if has_no_password(row)? {
        Ok(Password::Unset)
    } else {
        Err(ReadFault::Refused(BadStore))
    }
}

/// What is kept of the password of the person whose row it is.
///
/// # Errors
/// The store refused, a row isn't one that is written, or memory ran out.
pub(crate) fn password_of_row(older: Older, row: &Row) -> Result<Password, ReadFault>
    ensures value { IfOk result (λ password. password ≡ password_in (password_cells older row.now)) }
    ensures fault { IfErr result (λ fault. fault ≡ storage → ¬ HasOldPassword row.now) }
{
    let kind = small_of(row, 6)?;
    if kind == 0 {
        unset_of_row(row)
    } else if kind == 1 {
        chosen_of_row(row)
    } else if kind == 2 {
        one_time_of_row(older, row)
    } else {
        Err(ReadFault::Refused(BadStore))
    }
}

// The rounds of what was asked for.
fn ask_rounds_of(older: Older, row: &Row) -> Result<u32, ReadFault>
    ensures value { IfOk result (λ rounds. rounds ≡ unwrap_or (ask_rounds_in older row.now) 0) }
    ensures fault { IfErr result (λ _. ⊥) }
{
    match older {
        Older::Two => Ok(OLD_ROUNDS),
    }
}

// What the asker asked for.
fn ask_by_row(older: Older, row: &Row, asker: i64) -> Result<AskHead, ReadFault>
    ensures value { IfOk result (λ ask. ask ≡ ask_by_row older row.now asker) }
    ensures fault { IfErr result (λ fault. fault ≡ storage → ¬ HasOldAsked row.now) }
{
    let asked = moment_due(row, 14)?;
    let salt = salt_due(row, 15)?;
    let rounds = ask_rounds_of(older, row)?;
    let made = bytes_due(row, 16)?;
    Ok(AskHead {
        asker,
        asked,
        first: Verifier::from_parts(salt, rounds, made),
    })
}

// Nothing was asked for, and no column says what.
fn unasked_of_row(row: &Row) -> Result<Option<AskHead>, ReadFault>
    ensures value { IfOk result (λ ask. ask ≡ None) }
    ensures fault { IfErr result (λ fault. fault ≡ storage → ¬ HasUnasked row.now) }
{
    if !are_null(row, 14, 15)? {
        return Err(ReadFault::Refused(BadStore));
    }
    if !is_null(row, 16)? {
        return Err(ReadFault::Refused(BadStore));
    }
    Ok(None)
}

/// What an administrator asked for.
///
/// # Errors
/// The store refused, a row isn't one that is written, or memory ran out.
pub(crate) fn ask_of_row(older: Older, row: &Row) -> Result<Option<AskHead>, ReadFault>
    ensures value { IfOk result (λ ask. ask ≡ ask_head (ask_cells older row.now)) }
    ensures fault { IfErr result (λ fault. fault ≡ storage → ¬ HasOldAsk row.now) }
{
    match id_if(row, 13)? {
        Some(asker) => Ok(Some(ask_by_row(older, row, asker)?)),
        None => unasked_of_row(row),
    }
}
