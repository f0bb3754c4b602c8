//! What is kept of a laboratory: its persons and sessions, forms, records with their versions and
//! signatures, and its trail; which part of a laboratory a command needs, and which changes are
//! made (ISO/IEC 17025:2017, 7.5 and 8.4). This crate knows no commands, no bytes of requests and
//! no tables. It re-exports the names of the crates below of which these types are made. A `Drop`
//! that is written out saves each caller the proof of how each part is dropped.
#![tactic(auto)]

mod births;
mod changes;
mod digests;
mod found;
mod labs;
mod laws;
mod limits;
mod needs;
mod records;
mod trails;

pub use births::Newborn;
pub use changes::Change;
pub use found::{FoundRecord, place_of_version};
pub use lab_forms::{Bound, Choices, Field, Form, FormRefusal, Kind, Value};
pub use lab_forms_texts::Series;
pub use lab_people_access::{Ask, Closing, Password, Person, Role, Roles, Session};
pub use lab_seal_versions::{
    Amendment, Digest, EntryRow, EntryRows, Format, Key, LabCode, Meaning, Moment, Name, Note,
    Ordinal, Origin, OriginParts, OutOfMemory, PersonCode, Seal, SealParts, State, Unit,
    VersionParts,
};
pub use labs::Lab;
pub use laws::what_is_released;
pub use limits::{
    COUNT_LIMIT, FORM_VERSIONS_LIMIT, RECORDS_LIMIT, ROWS_LIMIT, STRAYS_LIMIT, VERSIONS_LIMIT,
};
pub use needs::{FormWanted, LabCounts, ListWanted, Need, RecordWanted, Slice};
pub use records::{FormVersion, Record, Signature, Version};
pub use trails::{Action, Deed, Occasion, Subject, TrailRow};
