//! The number of the schema that the tables make.

/// The number that the one row of the table `desk` has.
pub const SCHEMA: u64 = 3;
