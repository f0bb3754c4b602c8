//! One laboratory, whole.
use crate::records::{FormVersion, Record};
use crate::trails::TrailRow;
use lab_forms_texts::{LabCode, Moment, Name, Series};
use lab_people_access::{Person, Session};

/// One laboratory, whole.
pub struct Lab {
    /// The code with which requests name the laboratory.
    pub code: LabCode,
    /// The name of the laboratory, as founded.
    pub name: Name,
    /// The moment of the last activity. No later request may have an earlier moment.
    pub last: Moment,
    /// How many passwords were given for a code that nobody has, or for a person who is retired or
    /// has no password; counted up to a limit.
    pub strays: u64,
    /// The persons, in the order of their codes.
    pub persons: Series<Person>,
    /// The sessions, by number.
    pub sessions: Series<Session>,
    /// The versions of the forms, in the order of their codes and numbers.
    pub forms: Series<FormVersion>,
    /// The records, by number.
    pub records: Series<Record>,
    /// The rows of the trail, by number.
    pub trail: Series<TrailRow>,
}

impl Drop for Lab {
    fn drop(self) {
        let Lab {
            code: _,
            name: _,
            last: _,
            strays: _,
            persons: _,
            sessions: _,
            forms: _,
            records: _,
            trail: _,
        } = self;
    }
}
