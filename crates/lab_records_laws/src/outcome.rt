//! What is decided about a command.
use lab_records_kept::{Change, Series};
use lab_records_machine::Reply;

/// What is decided about a command: the reply, and the changes that have to be made, in order.
#[derive(Drop)]
pub struct Outcome {
    /// The reply.
    pub reply: Reply,
    /// The changes.
    pub changes: Series<Change>,
}
