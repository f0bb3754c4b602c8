//! The place of the files of laboratories, and the files, the clock, the source of random words and
//! the terminal of this machine; how such a file is opened or made, and closed; and why a task
//! over a file failed, printed on standard error.
#![tactic(auto)]

mod additions;
mod ends;
mod faults;
mod files;
mod telling;
mod trouble;
mod volumes;

pub use crate::additions::Additions;
pub use crate::ends::{Closable, Ended, Finished};
pub use crate::faults::{FoundingFault, OpenFault};
pub use crate::files::{open_new, open_old};
pub use crate::telling::{decline, decline_by, decline_to_open};
pub use crate::trouble::Trouble;
pub use crate::volumes::Volume;
pub use lab_records_copy_out::{Progress, Unheard};
