//! The streams that a task writes to.

use std::io::Write;

/// The types of the two streams.
pub trait Writers {
    /// Standard output.
    type Output: Write + Drop;

    /// Standard error.
    type Errors: Write + Drop;
}

/// Standard output and standard error.
#[derive(Drop)]
pub struct Streams<W: Writers> {
    /// Standard output.
    pub output: W::Output,
    /// Standard error.
    pub errors: W::Errors,
}
