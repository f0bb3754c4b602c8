//! What a file of an older schema says of the persons of a laboratory, their accounts and sessions, and of its trail, where their
//! rows are well kept: each is tried where it is read (21 CFR 11.10(a), (d) and (g); ISO/IEC 17025:2017, 7.11.3(d)). Nothing is
//! written.
#![tactic(auto)]

pub mod cells;
mod faults;
mod owners;
mod passwords;
mod people;
mod sessions;
mod trails;

pub use faults::KeptFault;
pub use people::persons_at;
pub use sessions::sessions_at;
pub use trails::trail_at;
