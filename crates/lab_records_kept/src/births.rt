//! The data of which a laboratory is founded.
use lab_forms_texts::{LabCode, Moment, Name};
use lab_people_access::Person;

/// A laboratory that is to be founded, with the three persons whom it begins with.
#[derive(Drop)]
pub struct Newborn {
    /// The code of the laboratory.
    pub code: LabCode,
    /// The name of the laboratory.
    pub name: Name,
    /// The moment of the founding.
    pub moment: Moment,
    /// The first founder.
    pub first: Person,
    /// The second founder.
    pub second: Person,
    /// The third founder.
    pub third: Person,
}
