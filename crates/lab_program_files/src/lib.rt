//! The tasks over a file of laboratories: to found one in it, to serve them, to copy the records of one. And what the tasks
//! share: what the file's tables mean as a keeper's; and what is handed to them (`Host`).
#![tactic(auto)]

mod copying;
mod files;
mod founding;
mod histories;
mod opening;
mod serving;
mod starts;

pub use copying::copy;
pub use founding::{found, found_over};
pub use histories::{a_history_begins, an_installation_goes_on_alone, what_a_task_does_is_a_run};
pub use lab_program_host::{Chance, Clock, Host, Outside, Streams, Writers};
pub use lab_program_opening::{
    Closable, FoundingFault, OpenFault, Progress, Trouble, Unheard, Volume,
};
pub use serving::serve;
pub use starts::{
    a_start_finds_what_was_left, what_is_copied_is_a_start, what_is_founded_is_a_start,
    what_is_served_is_a_start,
};
