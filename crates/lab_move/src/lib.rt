//! A file of an older schema, carried into a new one of today's schema: all of its laboratories, or a new
//! file that is never taken for a whole one (21 CFR 11.10(c), "protection of records to enable
//! their accurate and ready retrieval throughout the records retention period"; ISO/IEC 17025:2017,
//! 8.4.2).
#![tactic(auto)]

mod arrows;
mod counting;
mod faults;
mod filling;
mod moving;
mod old_tables;
mod opening;
pub mod schema2;
mod schemas;
mod testing;

pub use faults::MoveFault;
pub use lab_forms_texts::{LabCode, OutOfMemory};
pub use lab_move_tables::{ChainedLab, Older, is_sound, is_within};
pub use lab_move_write::{MoveProgress, Unwatched, finish, make_tables, place_lab};
pub use lab_records_kept::Lab;
pub use lab_store_files::FileFault;
pub use moving::{
    MoveEnd, a_named_file_stands, an_exact_file_is_named, an_unfinished_file_is_refused, migrate,
    one_refusal_is_owed, the_first_unsound_is_least,
};
pub use opening::{OldFile, Unopened, one_old_answer_is_owed, open_old};
