//! What the tables of a file say about the persons of a laboratory, their accounts and their
//! sessions (21 CFR 11.10(d), (g)). Nothing is written.
#![tactic(auto)]

mod asking;
pub mod cells;
mod counts;
mod heads;
mod passwords;
mod persons;
mod sessions;

pub use counts::person_count;
pub use heads::{AskHead, PersonHead};
pub use passwords::roles_of;
pub use persons::{person_at, persons_at};
pub use sessions::session_at;
