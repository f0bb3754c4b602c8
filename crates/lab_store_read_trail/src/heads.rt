//! What was done, as its own row shows it.

use lab_forms_texts::{Moment, Ordinal};
use lab_records_kept::{Action, Subject};

/// A row of the trail, with the id of the person's row.
#[derive(Drop)]
pub struct ToldHead {
    /// Its number in the laboratory.
    pub number: Ordinal,
    /// When it was done.
    pub moment: Moment,
    /// The id of the row of the person who did it, or whose password was given.
    pub person: Option<i64>,
    /// What was done.
    pub action: Action,
    /// What it was done to.
    pub subject: Subject,
}
