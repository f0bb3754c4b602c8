//! `labdesk` with all its commands, as they are declared to `clap`; which words it accepts, and
//! what they ask for: a task, with its arguments.
#![tactic(auto)]

mod apps;
mod tasks;

pub use tasks::{Task, task_of};
