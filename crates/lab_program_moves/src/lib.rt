//! The task over two files: the laboratories of an old one come into a new one, whose history
//! begins with them.
#![tactic(auto)]

mod histories;
mod moving;

pub use histories::a_move_begins_a_history;
pub use moving::migrate;
