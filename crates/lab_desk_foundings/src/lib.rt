//! What the body of a founding contains and why no laboratory was founded; why a run of events
//! ended before its last event; and why a request was not served whole. This crate asks no keeper.
#![tactic(auto)]

mod faults;
mod foundings;
mod run_faults;

pub use faults::FoundFault;
pub use foundings::{
    BODY_LIMIT, FoundingLine, founded_line, founding_of, line_of_fault, newborn_of,
};
pub use run_faults::{RunFault, ServeFault};
