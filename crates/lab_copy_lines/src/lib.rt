//! What rows of inspection copies stand for: each field of a row, and the line of typed parts that
//! they make, depending on the kind of the row.
#![tactic(auto)]

mod byte_records;
mod columns;
mod faults;
pub mod fields;
mod kinds;
mod lines;
mod parts;
mod version_row_parts;

pub use byte_records::{COLUMN_COUNT, is_header};
pub use columns::RowFields;
pub use faults::{BadRow, RowFault};
pub use kinds::LineKind;
pub use lines::read_line;
pub use version_row_parts::{
    EntryParts, SignatureParts, VersionRowParts, entry_parts, signature_parts, version_parts,
};
