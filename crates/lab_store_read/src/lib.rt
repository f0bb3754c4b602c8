//! What rows are read from; the rows of a query, by the kinds of its parameters; one column of a
//! row, read as its type; and the code of a person, by the id of the person's row (ISO/IEC
//! 17025:2017, 8.4.2: retrieval of records). Nothing is written.
#![tactic(auto)]

pub mod asking;
pub mod cells;
mod codes;
mod faults;
mod known;
mod readable;

pub use codes::code_at;
pub use faults::{ReadFault, read_fault};
pub use known::{KnownCode, code_if_any, code_once};
pub use lab_records_keeper::BadStore;
pub use readable::Readable;
