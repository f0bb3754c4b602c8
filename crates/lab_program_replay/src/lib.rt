//! A replay: the events of an input, read from its lines and run one after the other over a store
//! in memory, which begins without laboratories.
#![tactic(auto)]

mod event;
mod event_runs;
mod fault;
mod limited;
mod memory;
mod replays;

pub use event::next_event;
pub use event_runs::{run_events, tell};
pub use fault::ReplayFault;
pub use lab_desk::{Desk, Event};
pub use lab_forms_streams::WriteFault;
pub use limited::{LimitedReader, MOST_ASKS};
pub use memory::store_in_memory;
pub use replays::replay;
