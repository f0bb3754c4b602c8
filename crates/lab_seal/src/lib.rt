//! The reading of a version's text: its items, its parts, and which bytes are the text of which
//! version. The calls of the crates below, which hash, sign and write, are re-exported.
#![tactic(auto)]

mod faults;
pub mod fields;
pub mod parts;
mod reading;

pub use faults::{BadText, TextFault};
pub use lab_forms_texts::{
    Fault, Key, LabCode, Moment, MomentFault, Name, NameFault, Note, Ordinal, OutOfMemory,
    PersonCode, RefusalKind, Unit,
};
pub use lab_seal_hashes::{
    Digest, Half, Token, Verifier, VerifierParts, digest, founder_salts, hmac, pbkdf2, salt,
};
pub use lab_seal_versions::{
    Amendment, EntryRow, EntryRows, Format, Meaning, Origin, OriginParts, Seal, SealParts, State,
    VersionParts, seal, write_version,
};
pub use reading::{one_spelling, read_version};
