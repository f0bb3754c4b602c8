//! The names, moments and ticks that every other part of the system uses, and how they are read
//! from their texts.
#![tactic(auto)]

mod faults;
mod moment;
mod names;
mod ordinals;
mod refusals;
mod series;
mod text;
mod tick;
mod typed;

pub use faults::{BadName, MomentFault, NameFault, OutOfMemory};
pub use moment::{LAST_SECOND, Moment};
pub use names::{
    Key, Keys, LabCode, LabCodes, NAME_LIMIT, NOTE_LIMIT, Name, Names, Note, Notes, PersonCode,
    PersonCodes, Unit, Units, Writing, Writings,
};
pub use ordinals::{LAST_ORDINAL, Ordinal};
pub use refusals::{Fault, RefusalKind};
pub use series::Series;
pub use text::{Text, TextRule};
pub use tick::Tick;
pub use typed::Typed;
