//! A new file into which laboratories are carried: its tables are made first, by one commit; each laboratory is placed
//! whole, by one commit, all of it or none; and its schema is named last, by another, so that a file which was left
//! between the two is never taken for a whole one (21 CFR 11.10(c) and (e); ISO/IEC 17025:2017, 7.5.2 and 7.11.3). The laws
//! of a move stand here, too: each of their functions does nothing, and its contract says the law.
#![tactic(auto)]

mod finishing;
mod kinds;
mod making;
mod naming;
mod placing;
mod placing_laws;
mod progress;
mod schemas;
mod texts;

pub use finishing::finish;
pub use making::make_tables;
pub use naming::a_named_file_is_well_kept;
pub use placing::place_lab;
pub use placing_laws::a_laboratory_is_placed;
pub use progress::{MoveProgress, Unwatched};
