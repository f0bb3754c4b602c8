//! The rows of inspection copies: what each kind of row states, when a copy is sound, and how rows
//! are written as CSV (RFC 4180).
#![tactic(auto)]

mod faults;
mod flaws;
mod laws;
mod lines;
mod outs;
mod rows;
mod sending;
mod texts;

pub use faults::CopyOutFault;
pub use flaws::Flaw;
pub use lab_seal_versions::{
    Digest, EntryRow, Format, Key, LabCode, Meaning, Moment, Name, Note, Ordinal, OutOfMemory,
    PersonCode, Seal, SealParts, State, Unit,
};
pub use laws::{a_yes_means_sound, rows_read_back};
pub use lines::{
    CopyLine, Counts, Edition, EndLine, EntryLine, LAST_COUNT, Line, RecordLine, SignatureLine,
    VersionLine,
};
pub use outs::{CopyOut, write_copy};
pub use rows::CopyRow;
