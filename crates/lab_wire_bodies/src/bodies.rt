//! What a whole body names, read from its bytes: the command of a POST, or the founding.
ghost use Rattle.std.specs.Prelude.{◌≡◌, Ok, IfOk, IfErr};
ghost use Rattle.serde_json.specs.View.{view};
ghost use Rattle.lab_wire_members.specs.Readings.{FaultyInTurn};
ghost use Rattle.lab_wire_bodies.specs.Foundings.{founding_named};
ghost use Rattle.lab_wire_bodies.specs.Bodies.{body_named, post_named, BodyFaultFits};

use crate::{accounts, amendment, entry, forms, foundings, record, signature};
use lab_records_machine::{Command, Founding};
use lab_wire_members::{BodyFault, value_of};
use serde_json::Value;
use std::alloc::Global;

/// The commands that are posted with a body.
#[derive(Clone, Copy, Debug, PartialEq, Eq, Drop)]
pub enum Post {
    /// A session is opened.
    Open,
    /// The session is closed.
    Close,
    /// A password is changed.
    ChangePassword,
    /// A person is enrolled.
    Enrol,
    /// A one-time password is asked for.
    AskIssue,
    /// A one-time password is confirmed.
    ConfirmIssue,
    /// A person's roles are set.
    SetRoles,
    /// A person has left.
    Retire,
    /// A person's lock is taken away.
    Unlock,
    /// A form is made, or its next version.
    MakeForm,
    /// A record is opened.
    OpenRecord,
    /// A value is entered.
    Enter,
    /// A record is amended.
    Amend,
    /// A version of a record is signed.
    Sign,
}

/// Reads the command that a body names, for the given kind of POST.
///
/// # Errors
/// - `BadBody` if the body isn't an object of exactly the command's members, each of its kind;
/// - otherwise `BadName` if a code, key, name, unit or reason in it isn't allowed;
/// - otherwise what is wrong with the fields of a form, or `KeyTwice` if an amendment alters one
///   key twice;
/// - out of memory, for any body except an empty one.
#[tactic(auto, using(crate::proofs::BodyLemmas::of_body), unfolding(crate::specs::Bodies::body_named))]
pub fn command_of(alloc: Global, post: Post, body: &[u8]) -> Result<Command, BodyFault>
    ensures read { IfOk result (λ command. body_named (post_named post) body.now ≡ Ok command) }
    ensures fault { IfErr result (BodyFaultFits (post_named post) body.now) }
{
    match value_of(alloc, body) {
        Ok(value) => posted_command(alloc, post, &value),
        Err(fault) => Err(fault),
    }
}

/// Reads the founding that a body names.
///
/// # Errors
/// - `BadBody` if the body isn't an object of exactly a founding's members, with three founders;
/// - otherwise `BadName` if a code or name in it isn't allowed;
/// - out of memory, for any body except an empty one.
#[tactic(auto, using(crate::proofs::BodyLemmas::of_body), unfolding(crate::specs::Bodies::body_named))]
pub fn founding_of(alloc: Global, body: &[u8]) -> Result<Founding, BodyFault>
    ensures read { IfOk result (λ founding. body_named founding_named body.now ≡ Ok founding) }
    ensures fault { IfErr result (BodyFaultFits founding_named body.now) }
{
    match value_of(alloc, body) {
        Ok(value) => foundings::founding(alloc, &value),
        Err(fault) => Err(fault),
    }
}

// The command that JSON names, for the given kind of POST.
fn posted_command(alloc: Global, post: Post, value: &Value) -> Result<Command, BodyFault>
    ensures read { IfOk result (λ command. post_named post (view value.now) ≡ Ok command) }
    ensures fault { IfErr result (FaultyInTurn (post_named post (view value.now))) }
{
    match post {
        Post::Open => accounts::opening(alloc, value),
        Post::Close => match accounts::closing(value) {
            Ok(command) => Ok(command),
            Err(refusal) => Err(BodyFault::Refused(refusal)),
        },
        Post::ChangePassword => accounts::password(alloc, value),
        Post::Enrol => accounts::enrolment(alloc, value),
        Post::AskIssue => accounts::issue(alloc, value),
        Post::ConfirmIssue => accounts::confirmation(alloc, value),
        Post::SetRoles => accounts::setting_roles(alloc, value),
        Post::Retire => accounts::retirement(alloc, value),
        Post::Unlock => accounts::unlocking(alloc, value),
        Post::MakeForm => forms::form(alloc, value),
        Post::OpenRecord => record(alloc, value),
        Post::Enter => entry(alloc, value),
        Post::Amend => amendment(alloc, value),
        Post::Sign => signature(alloc, value),
    }
}
