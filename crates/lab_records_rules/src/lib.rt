//! The rules on forms and records, for things that were already looked up: each returns the first
//! refusal in order, or what is made or read (ISO/IEC 17025:2017, 7.5; 21 CFR Part 11). They know
//! no whole laboratory and no command.
#![tactic(auto)]

mod faults;
mod items;
mod making;
mod outcomes;
mod reading;
mod readings;
mod refusals;
mod values;

pub use faults::{CommandFault, fail};
pub use items::{Altered, Item};
pub use lab_forms_texts::Typed;
pub use making::{make_form, open_record};
pub use outcomes::{AmendmentMade, EntryMade, SignatureMade, Signing};
pub use reading::{person_line, read_form, read_record, read_version, record_line};
pub use readings::{PersonLine, RecordRead, RecordState, VersionRead, VersionState};
pub use refusals::Refusal;
pub use values::{altered_at, first_versions, latest, row_of_key};
