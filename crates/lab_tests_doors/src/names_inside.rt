//! The names that a caller needs of the boxes that know no tables and no bytes of requests, each by
//! the door of its box. Nothing is done with them here: a door that doesn't pass one on is found as
//! this crate is checked.

pub(crate) use lab_copy::{
    CopyFault, CopyLine, CopyOut, Counts, EntryLine, Flaw, RecordLine, check_copy, write_copy,
};
pub(crate) use lab_forms::{
    Field, Form, FormFault, Key, LabCode, Moment, MomentFault, Name, NameFault, Note, OutOfMemory,
    PersonCode, RefusalKind, Tick, Unit, Value,
};
pub(crate) use lab_people::{
    PeopleFault, Person, ROUNDS, Role, Rule, Session, allowed, ask_issue, change_password,
    confirm_issue, enrol, live, open_session, retire, set_roles, unlock,
};
pub(crate) use lab_records::{
    AccountCommand, Change, Command, EntryRow, FormVersion, Founder, Founding, Instruction, Keeper,
    Lab, Need, Outcome, ReadingCommand, Record, RecordCommand, Refusal, Reply, Series,
    SessionCommand, Signature, Slice, Version, decide, needs,
};
pub(crate) use lab_seal::{
    Digest, Format, Half, Ordinal, Seal, SealParts, TextFault, Token, Verifier, VersionParts,
    digest, hmac, pbkdf2, read_version, seal, write_version,
};
