//! The forms that laboratories fill in: what a field takes, and which texts are its values.
#![tactic(auto)]

mod dates;
mod faults;
mod forms;
mod kinds;
mod numbers;
mod values;
mod words;

pub use faults::{FormFault, FormRefusal};
pub use forms::{FIELDS_LIMIT, Field, Form};
pub use kinds::{Bound, Choices, Kind};
pub use lab_forms_texts::{
    Fault, Key, LabCode, Moment, MomentFault, Name, NameFault, Note, OutOfMemory, PersonCode,
    RefusalKind, Text, TextRule, Tick, Unit,
};
pub use values::Value;
