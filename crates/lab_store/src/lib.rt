//! Laboratories in the tables of a SQLite file, as a keeper: each call of the desk is one read, or
//! one commit that is made whole or not at all (21 CFR 11.10(c) and (e); ISO/IEC 17025:2017, 7.11.3
//! and 8.4.2).
#![tactic(auto)]

mod applying;
mod founding;
mod givers;
mod openings;
mod places;
mod store;
mod tables;

pub use applying::apply;
pub use founding::found;
pub use givers::OneVersionAtATime;
pub use lab_copy_rows::CopyRow;
pub use lab_forms_texts::{Fault, Ordinal, OutOfMemory, RefusalKind};
pub use lab_records_copy_out::copy_rows;
pub use lab_records_keeper::{BadStore, Keeper, KeeperFault, PlacingFault};
pub use lab_records_kept::{Change, LabCode, Need, Newborn, Series, Slice};
pub use lab_store_files::{FileFault, create};
pub use openings::Unopened;
pub use store::{Store, StoreFault};
pub use tables::Tables;
