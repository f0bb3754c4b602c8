//! The desk: requests and foundings go in, and reply bytes come out, over any keeper of
//! laboratories. Each laboratory's answers and rows are those of its own small machine, run over
//! its own events alone, so two desks that agree on a laboratory give the same answers.
#![tactic(auto)]

mod desk;
mod desks;
mod runs;
mod serving;
mod twin_runs;

pub use desk::{Desk, Unmade};
pub use desks::{Twins, twin};
pub use lab_desk_events::Event;
pub use lab_desk_foundings::{FoundFault, RunFault, ServeFault, founding_of};
pub use lab_forms_texts::{Fault, LabCode, Moment, OutOfMemory, RefusalKind, Series, Tick};
pub use lab_records_copy_out::{
    CopyOutFault, Progress, RecordGiver, Unheard, WholeRecords, copy_out,
};
pub use lab_records_keeper::{BadStore, Keeper, KeeperFault, PlacingFault};
pub use lab_records_machine::{BirthRefusal, Founder, Founding};
pub use lab_records_memory::Lists;
pub use lab_wire_members::BodyRefusal;
pub use twin_runs::equal_events_get_equal_answers;
