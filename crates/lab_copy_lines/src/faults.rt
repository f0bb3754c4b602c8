//! Why a row wasn't read.

use lab_forms_texts::Fault;

/// No copy can have the row.
#[derive(Clone, Copy, Debug, PartialEq, Eq)]
pub struct BadRow;

/// Why a row wasn't read. Memory is the fault only if a copy can have the row.
pub type RowFault = Fault<BadRow>;
