//! What a program takes from outside, whoever passes it in: the moments of a clock, random words,
//! and the bytes of a reader; a file whose bytes are written again in place; the faults that stop a
//! program there, and how a fault is printed on standard error.
#![tactic(auto)]

mod drawing;
mod faults;
mod hosts;
mod reading;
mod renewing;
mod streams;
mod told;

pub use drawing::{Chance, Clock, DrawFault, draw};
pub use faults::{ConnectionFault, ListenFault, RehearsalFault, ServerFault};
pub use hosts::{Host, Outside};
pub use lab_desk_foundings::{FoundFault, ServeFault};
pub use lab_forms_streams::WriteFault;
pub use lab_forms_texts::{Moment, Tick};
pub use reading::read_all;
pub use renewing::{Renewable, renew};
pub use streams::{Streams, Writers};
pub use told::tell;
