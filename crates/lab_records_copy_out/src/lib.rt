//! Inspection copies that are written from a keeper one record at a time (21 CFR 11.10(b)), so a
//! copy of any length takes only the memory of its longest record, or less if a record is written
//! in parts.
#![tactic(auto)]

mod copies;
mod faults;
mod givers;
mod laws;
mod legible;
mod progress;
mod ranges;
mod reads;
mod wholes;

pub use copies::copy_out;
pub use faults::CopyOutFault;
pub use givers::{RecordGiver, WholeRecords};
pub use lab_records_keeper::Keeper;
pub use lab_records_kept::{LabCode, Moment, Ordinal};
pub use laws::{a_laboratory_can_be_walked, a_legible_laboratory_gives_sound_copies};
pub use legible::{changes_are_legible, lab_is_legible, newborn_is_legible, order_is_legible};
pub use progress::{Progress, Unheard};
pub use ranges::copy_rows;
