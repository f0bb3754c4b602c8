//! The twelve tables of a file of an older schema, read as rows of the tables of today's: what a laboratory in such a file means, and
//! when its rows are well kept (21 CFR 11.10(c), "protection of records to enable their accurate and ready retrieval
//! throughout the records retention period"; ISO/IEC 17025:2017, 8.4.2); the fifteen questions that read them; and
//! whether a laboratory is within its limits, bound and under dual control, for which its digests and seals are computed
//! again, each once (21 CFR 11.70, signatures "linked to their respective electronic records", and 11.10(a), "the ability to discern
//! invalid or altered records").
#![tactic(auto)]

mod asking;
mod bound;
mod chained;
mod checks;
mod dual;
mod forms;
mod labs;
mod laws;
mod limits;
mod older;
mod orders;
mod people;
mod records;
mod sound;
mod trails;

pub use chained::ChainedLab;
pub use checks::{are_owned, are_rows_numbered};
pub use forms::{choice_rows, field_rows, form_rows};
pub use labs::{code_rows, lab_rows};
pub use laws::{a_peer_file_stands, an_exact_file_stands, an_exact_file_takes_all};
pub use limits::is_within;
pub use older::Older;
pub use people::{owner_rows, person_rows, session_rows};
pub use records::{
    entry_places, entry_rows, record_rows, signature_places, signature_rows, version_rows,
};
pub use sound::is_sound;
pub use trails::told_rows;
