//! Streams of bytes: sources, and how often they are asked; how all bytes of a text are written.
#![tactic(auto)]

mod sending;
mod sources;

pub use sending::{WriteFault, write_whole};
pub use sources::ByteSource;
