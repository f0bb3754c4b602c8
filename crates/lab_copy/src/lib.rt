//! The check of inspection copies, row by row: order, digests, seals and signers (21 CFR 11.10(b)).
//! The functions that write copies are re-exported.
#![tactic(auto)]

mod asks;
mod checks;
mod current;
mod faults;
mod fronts;
mod kept;
mod places;

pub use checks::check_copy;
pub use current::{CurrentVersion, begin, enter, sign};
pub use faults::CopyFault;
pub use lab_copy_rows::{
    CopyLine, CopyOut, CopyOutFault, CopyRow, Counts, Digest, Edition, EndLine, EntryLine,
    EntryRow, Flaw, Format, Key, LabCode, Line, Meaning, Moment, Name, Note, Ordinal, OutOfMemory,
    PersonCode, RecordLine, Seal, SealParts, SignatureLine, State, Unit, VersionLine, write_copy,
};
pub use lab_forms_texts::{Fault, RefusalKind};
pub use places::{
    are_same_counts, counts_with, is_first_line, is_first_version, lab_of, was_asked,
};
