//! The row of a laboratory.

ghost use Rattle.lab_records_kept.specs.declared.changes.Change.TheVariants.{Last, Strays};
ghost use Rattle.lab_store_tables.specs.Changes.{AppliesIn};
ghost use Rattle.lab_store_write.specs.Calls.{WritesTrying, WritesUnlessTrying};
ghost use Rattle.lab_store_write.specs.Causes.{IsTooGreat};
ghost use Rattle.lab_store_write.specs.Statements.{setting_last, setting_strays};
ghost use Rattle.lab_store_write.specs.Tried.{Only};

use crate::statements::{RowId, run};
use crate::values::{count_value, id_value, moment_value};
use crate::writable::Writable;
use lab_forms_texts::Moment;
use sqlite::Error;

/// Sets the last moment of the laboratory.
///
/// # Errors
/// The store failed, or memory ran out.
pub fn set_last<W: Writable>(tx: &mut W, lab: RowId, moment: Moment) -> Result<usize, Error>
    ensures { WritesTrying (Only (setting_last lab.id moment)) W.lender W.state
        (AppliesIn lab.id (Last moment)) tx.old tx.new result }
{
    run(
        tx,
        "UPDATE labs SET last = ?2 WHERE id = ?1",
        &[id_value(lab), moment_value(moment)],
    )
}

/// Sets how many passwords were given for no person's account.
///
/// # Errors
/// The errors of `Writable`, or the number is too great for the store.
pub fn set_strays<W: Writable>(tx: &mut W, lab: RowId, count: u64) -> Result<usize, Error>
    ensures { WritesUnlessTrying (λ _. IsTooGreat count) (Only (setting_strays lab.id count))
        W.lender W.state (AppliesIn lab.id (Strays count)) tx.old tx.new result }
{
    let strays = count_value(count)?;
    run(
        tx,
        "UPDATE labs SET stray = ?2 WHERE id = ?1",
        &[id_value(lab), strays],
    )
}
