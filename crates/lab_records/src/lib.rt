//! What is decided on the part of a laboratory that a command needs: the reply, and the changes
//! that have to be made (ISO/IEC 17025:2017, 7.5; 21 CFR Part 11). This crate knows no bytes, no
//! tables and no keeper.
#![tactic(auto)]

mod commands;
mod decisions;

pub use commands::done_of;
pub use decisions::{command_is_formed, decide};
pub use lab_forms_texts::{
    Fault, Key, LabCode, Moment, Name, Note, Ordinal, OutOfMemory, PersonCode, RefusalKind, Series,
    Tick, Unit,
};
pub use lab_records_commands::opening_done;
pub use lab_records_keeper::{BadStore, Keeper, KeeperFault, PlacingFault};
pub use lab_records_kept::{
    Change, EntryRow, FormVersion, FormWanted, FoundRecord, Lab, LabCounts, ListWanted, Need,
    Newborn, Record, RecordWanted, Signature, Slice, TrailRow, Version,
};
pub use lab_records_laws::Outcome;
pub use lab_records_machine::{
    AccountCommand, BirthRefusal, Command, Founder, Founding, Instruction, ReadingCommand,
    RecordCommand, Reply, SessionCommand, needs,
};
pub use lab_records_rules::{
    CommandFault, Item, PersonLine, RecordRead, RecordState, Refusal, Signing, VersionRead,
    VersionState,
};
