//! The limits of a laboratory, except those of its persons and of the fields of a form. The
//! definitions are in `specs/Limits.antt`; the contracts state that the code refuses at the same
//! numbers.

use lab_forms_texts::LAST_ORDINAL;

/// The most versions of a form.
pub const FORM_VERSIONS_LIMIT: u32 = 99;

/// The most records.
pub const RECORDS_LIMIT: u64 = 1_000_000;

/// The most versions of a record.
pub const VERSIONS_LIMIT: u32 = 99;

/// The most rows of a version.
pub const ROWS_LIMIT: usize = 200;

/// The most sessions, and the most rows of the trail.
pub const COUNT_LIMIT: u64 = LAST_ORDINAL as u64;

/// The count at which passwords that were given for nobody's account are counted no further.
pub const STRAYS_LIMIT: u64 = 9_223_372_036_854_775_807;
