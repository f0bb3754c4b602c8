//! The text of a version as it is written, of which its digest is taken; the seals of signatures
//! over that digest (21 CFR 11.70); and the states that signatures make.
#![tactic(auto)]

mod items;
mod origins;
mod rows;
mod sealing;
mod seals;
mod states;
mod versions;

pub use lab_forms_texts::{
    Key, LabCode, Moment, Name, NameFault, Note, Ordinal, OutOfMemory, PersonCode, Tick, Unit,
};
pub use lab_seal_hashes::{
    Digest, Half, Token, Verifier, VerifierParts, digest, founder_salts, hmac, pbkdf2, salt,
};
pub use origins::{Amendment, Origin, OriginParts};
pub use rows::{EntryRow, EntryRows};
pub use sealing::seal;
pub use seals::{Meaning, Seal, SealParts};
pub use states::{State, state_of};
pub use versions::{Format, VersionParts, write_version, write_with_rows};
