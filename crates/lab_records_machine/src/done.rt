//! The result of a command by itself.
use crate::replies::Reply;
use lab_people_access::Failure;
use lab_records_kept::{Change, Deed, Occasion, Series};
use lab_records_rules::Refusal;

/// The result of a command by itself, before the trail is looked at.
#[derive(Drop)]
pub enum Done {
    /// The command is refused.
    Refused(Refusal),
    /// A password that was given for the command failed.
    Failed(Occasion, Failure),
    /// Something was read.
    Read(Reply),
    /// Something was made: the reply, what the trail lists, and the changes.
    Made(Reply, Deed, Series<Change>),
}
