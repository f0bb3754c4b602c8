//! A file in which laboratories are kept, made new or opened. The tables are made in one commit,
//! and a file is opened only if it says which schema it has and has every table and column of this
//! schema (21 CFR 11.10(a) and (c); ISO/IEC 17025:2017, 7.11.3 and 8.4.2).
#![tactic(auto)]

mod creating;
mod faults;
mod opening;
mod schemas;
mod tables;
mod texts;

pub use creating::create;
pub use faults::FileFault;
pub use lab_store_tables::SCHEMA;
pub use opening::{one_answer_is_owed, open};
