//! The order of a copy.
use lab_copy_rows::{Moment, Ordinal, PersonCode};

/// The order of a copy: which records are asked for, who asks, and when.
#[derive(Drop)]
pub struct CopyOrder {
    /// The number of the first record that is asked for.
    pub from: Ordinal,
    /// The number of the last record that is asked for.
    pub to: Ordinal,
    /// Who asks; `None` if the copy is made on the machine of the desk.
    pub person: Option<PersonCode>,
    /// When the copy is made.
    pub moment: Moment,
}
