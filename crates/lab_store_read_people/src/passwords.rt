//! What is kept of a password, what an administrator asked for, and the roles, read from the
//! columns of a person's row.

ghost use Rattle.std.specs.Prelude.{◌≡◌, true, IfOk, IfErr, unwrap_or};
ghost use Rattle.sqlite_value.specs.Order.{column, bytes};
ghost use Rattle.lab_people_access.specs.declared.passwords.Password.TheVariants.{Chosen, OneTime};
ghost use Rattle.lab_people_access.specs.Passwords.{are_rounds};
ghost use Rattle.lab_store_tables.specs.Rows.{number_in, optional_in};
ghost use Rattle.lab_store_tables.specs.Columns.{roles_in, verifier_in, password_in};
ghost use Rattle.lab_store_read.specs.Cells.{storage};
ghost use Rattle.lab_store_read_people.specs.Heads.{ask_head};
ghost use Rattle.lab_store_read_people.specs.PersonsReadable.{HasVerifier, HasChosen, HasOneTime, HasPassword, HasAsk};
ghost use Rattle.lab_store_read_people.specs.PersonsShown.{password_cells, ask_cells};

use crate::cells::{bytes_due, moment_due, salt_due, small_due};
use crate::heads::AskHead;
use lab_people_access::{Password, Roles, are_rounds};
use lab_seal_hashes::Verifier;
use lab_store_read::cells::{id_if, small_of};
use lab_store_read::{BadStore, ReadFault};
use sqlite::Row;

/// Returns the roles that a sum stands for.
pub fn roles_of(sum: u32) -> Roles
    ensures { result ≡ roles_in sum }
{
    Roles {
        analyst: sum % 2 == 1,
        reviewer: sum / 2 % 2 == 1,
        manager: sum / 4 % 2 == 1,
        administrator: sum / 8 % 2 == 1,
        inspector: sum / 16 % 2 == 1,
    }
}

// The verifier whose parts stand in three columns. Its number of rounds must be one with which this
// program makes or made verifiers.
fn verifier_of(row: &Row, salt: usize, rounds: usize, made: usize) -> Result<Verifier, ReadFault>
    ensures known { IfOk result (λ verifier. are_rounds verifier.rounds ≡ true) }
    ensures parts { IfOk result (λ verifier. verifier
        ≡ verifier_in (optional_in bytes (column row.now salt))
        (optional_in number_in (column row.now rounds))
        (optional_in bytes (column row.now made))) }
    ensures fault { IfErr result (λ fault.
        fault ≡ storage → ¬ HasVerifier row.now salt rounds made) }
{
    let salt = salt_due(row, salt)?;
    let rounds = small_due(row, rounds)?;
    let made = bytes_due(row, made)?;
    if !are_rounds(rounds) {
        return Err(ReadFault::Refused(BadStore));
    }
    Ok(Verifier::from_parts(salt, rounds, made))
}

// A password that its person chose.
fn chosen_of_row(row: &Row) -> Result<Password, ReadFault>
    ensures value { let cells = password_cells row.now in IfOk result (λ password. password
        ≡ Chosen (verifier_in cells.salt cells.rounds cells.bytes) (unwrap_or cells.changed 0)) }
    ensures fault { IfErr result (λ fault. fault ≡ storage → ¬ HasChosen row.now) }
{
    let verifier = verifier_of(row, 7, 8, 9)?;
    let changed = moment_due(row, 13)?;
    Ok(Password::Chosen { verifier, changed })
}

// A one-time word.
fn one_time_of_row(row: &Row) -> Result<Password, ReadFault>
    ensures value { let cells = password_cells row.now in IfOk result (λ password. password
        ≡ OneTime (verifier_in cells.salt cells.rounds cells.bytes)
        (verifier_in cells.salt2 cells.rounds2 cells.bytes2) (unwrap_or cells.changed 0)) }
    ensures fault { IfErr result (λ fault. fault ≡ storage → ¬ HasOneTime row.now) }
{
    let first = verifier_of(row, 7, 8, 9)?;
    let second = verifier_of(row, 10, 11, 12)?;
    let confirmed = moment_due(row, 13)?;
    Ok(Password::OneTime {
        first,
        second,
        confirmed,
    })
}

/// Returns what is kept of the password of the person with this row.
///
/// # Errors
/// The store failed, a row isn't one that this program could have written, or memory ran out.
pub(crate) fn password_of_row(row: &Row) -> Result<Password, ReadFault>
    ensures value { IfOk result (λ password. password ≡ password_in (password_cells row.now)) }
    ensures fault { IfErr result (λ fault. fault ≡ storage → ¬ HasPassword row.now) }
{
    let kind = small_of(row, 6)?;
    if kind == 0 {
        Ok(Password::Unset)
    } else if kind == 1 {
        chosen_of_row(row)
    } else if kind == 2 {
        one_time_of_row(row)
    } else {
        Err(ReadFault::Refused(BadStore))
    }
}

/// Returns what an administrator asked for.
///
/// # Errors
/// The store failed, a row isn't one that this program could have written, or memory ran out.
pub(crate) fn ask_of_row(row: &Row) -> Result<Option<AskHead>, ReadFault>
    ensures value { IfOk result (λ ask. ask ≡ ask_head (ask_cells row.now)) }
    ensures fault { IfErr result (λ fault. fault ≡ storage → ¬ HasAsk row.now) }
{
    match id_if(row, 14)? {
        Some(asker) => {
            let asked = moment_due(row, 15)?;
            let first = verifier_of(row, 16, 17, 18)?;
            Ok(Some(AskHead {
                asker,
                asked,
                first,
            }))
        }
        None => Ok(None),
    }
}
