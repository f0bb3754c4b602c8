//! What the tables of a file say about a laboratory and its records: a record, found by its number
//! or by its form and sample, its versions, and their chain (ISO/IEC 17025:2017, 8.4.2; 21 CFR
//! 11.10(c)). Nothing is written.
#![tactic(auto)]

mod asking;
mod asking_by_key;
mod cells;
mod chains;
mod entries;
mod heads;
mod labs;
mod leaves;
mod record_leaves;
mod records;
mod retrieved_records;
mod signatures;
mod versions;

pub use chains::{chain, version_after};
pub use entries::entries_at;
pub use heads::{LabHead, RecordHead, VersionHead};
pub use labs::{first_lab, lab_at, lab_rows};
pub use leaves::{VersionLeaf, leaf_at};
pub use record_leaves::leaves_at;
pub use records::record_at;
pub use retrieved_records::{record_about, records_of_rows, records_within};
pub use signatures::signatures_at;
pub use versions::versions_at;
