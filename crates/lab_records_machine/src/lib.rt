//! What is decided about a laboratory: the commands that it has, what it replies and refuses, and
//! what each command changes (ISO/IEC 17025:2017, 7.5 and 8.4; 21 CFR Part 11). This crate knows no
//! bytes of requests and no tables.
#![tactic(auto)]

mod births;
mod commands;
mod done;
mod lists;
mod passages;
mod replies;
mod wanted;

pub use births::{BirthRefusal, Founder, Founding, bear};
pub use commands::{
    AccountCommand, Command, Instruction, ReadingCommand, RecordCommand, SessionCommand,
};
pub use done::Done;
pub use lists::{joined_list, pair, single, triple};
pub use passages::{Passage, pass};
pub use replies::Reply;
pub use wanted::needs;
