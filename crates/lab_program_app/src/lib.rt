//! The words of a command line, as they are declared to `clap`, the help of each, and how a fault
//! in the words is printed.
#![tactic(auto)]

mod commands;
mod explaining;

pub use commands::{
    check_command, copy_command, found_command, migrate_command, rehearse_command, replay_command,
    serve_command,
};
pub use explaining::{explain, explain_order};
pub use lab_forms_streams::WriteFault;
