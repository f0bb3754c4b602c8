//! The rows of a record's copy, read from the tables of a file one version at a time (21 CFR
//! 11.10(b)): only that version's rows and the digest of the version before it are held. Nothing is
//! written to the file.
#![tactic(auto)]

mod covers;
mod faults;
mod leaves;
mod records;

pub use records::give_records_at;
