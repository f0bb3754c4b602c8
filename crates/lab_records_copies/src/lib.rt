//! Copies of a laboratory's records for inspection (21 CFR 11.10(b)): their rows, made of what is
//! kept.
#![tactic(auto)]

mod laws;
mod orders;
mod parts;
mod wholes;

pub use lab_copy_rows::{
    CopyRow, Counts, EntryRow, LabCode, Moment, Name, Ordinal, OutOfMemory, PersonCode,
};
pub use lab_records_kept::{Record, Signature, Version};
pub use laws::a_copy_is_sound;
pub use orders::CopyOrder;
pub use parts::{record_row, version_rows};
pub use wholes::{body_rows, copy_rows};
