//! What a request asks at the place where it goes: its command, with the query or the body that the
//! command needs.
ghost use Rattle.std.specs.Prelude.{◌≡◌, ◌<◌, Ok, Err, IfOk, IfErr, length, option_map};
ghost use Rattle.lab_wire_heads.specs.Requests.{parts_shown};
ghost use Rattle.lab_wire_bodies.specs.Bodies.{post_named, body_named};
ghost use Rattle.lab_records_machine.specs.declared.commands.ReadingCommand.TheVariants.{ReadForm, ReadRecords, ReadTrail, TakeCopy};
ghost use Rattle.lab_forms_texts.specs.declared.refusals.Fault.TheVariants.{Memory};
ghost use Rattle.lab_wire.specs.Queries.{range_in};
ghost use Rattle.lab_wire.specs.Commands.{by_body, reads_in, command_at, PostsBytes, asked_of, command_asked, RouteFaultFits};
ghost use Rattle.lab_wire.specs.Private.Commands.{FaultFits};

use crate::aims::{Admitted, Aim};
use crate::queries::range_in;
use crate::route_refusals::{RouteFault, RouteRefusal};
use crate::routes::{Destination, Routes};
use lab_forms_texts::{Keys, LabCode, LabCodes, Ordinal};
use lab_records_machine::{Command, Instruction, ReadingCommand, SessionCommand};
use lab_seal_hashes::Token;
use lab_wire_bodies::{Post, command_of as command_in};
use lab_wire_heads::RequestParts;
use lab_wire_members::{BodyFault, BodyRefusal};
use std::alloc::Global;

/// What a request asks, and of which laboratory.
#[derive(Drop)]
pub struct Asked {
    /// The laboratory.
    pub lab: LabCode,
    /// The instruction.
    pub instruction: Instruction,
}

/// The fault if a query states no range.
const BAD_QUERY: RouteFault = RouteFault::Refused(RouteRefusal::Body(BodyRefusal::BadBody));

// A reading command, as one that is given in a session.
fn reads_in(command: ReadingCommand) -> Command
    ensures { result ≡ reads_in command }
{
    Command::In(SessionCommand::Reading(command))
}

// A version of a form. Only its key is copied.
fn form(alloc: Global, code: &Admitted<'_, Keys>, version: Ordinal) -> Result<Command, RouteFault>
    ensures read { IfOk result (λ command. command ≡ reads_in (ReadForm code.now version)) }
    ensures fault { IfErr result (λ fault. fault ≡ Memory) }
{
    let code = code.own(alloc)?;
    Ok(reads_in(ReadingCommand::ReadForm { code, version }))
}

// Records from a number to a number.
fn records(query: &str) -> Option<Command>
    ensures { result ≡ option_map (λ range. reads_in (ReadRecords range.from range.to))
        (range_in query.now) }
{
    let range = range_in(query)?;
    Some(reads_in(ReadingCommand::ReadRecords {
        from: range.from,
        to: range.to,
    }))
}

// Rows of the trail from a number to a number.
fn trail(query: &str) -> Option<Command>
    ensures { result ≡ option_map (λ range. reads_in (ReadTrail range.from range.to))
        (range_in query.now) }
{
    let range = range_in(query)?;
    Some(reads_in(ReadingCommand::ReadTrail {
        from: range.from,
        to: range.to,
    }))
}

// A copy of records from a number to a number.
fn copy(query: &str) -> Option<Command>
    ensures { result ≡ option_map (λ range. reads_in (TakeCopy range.from range.to))
        (range_in query.now) }
{
    let range = range_in(query)?;
    Some(reads_in(ReadingCommand::TakeCopy {
        from: range.from,
        to: range.to,
    }))
}

// What a body names.
fn posted_command(alloc: Global, post: Post, body: &[u8]) -> Result<Command, RouteFault>
    ensures read { IfOk result (λ command.
        by_body (body_named (post_named post) body.now) ≡ Ok command) }
    ensures fault { IfErr result (FaultFits (0 < length body.now)
        (by_body (body_named (post_named post) body.now))) }
{
    match command_in(alloc, post, body) {
        Ok(command) => Ok(command),
        Err(BodyFault::Refused(refusal)) => Err(RouteFault::Refused(RouteRefusal::Body(refusal))),
        Err(BodyFault::Memory) => Err(RouteFault::Memory),
    }
}

// The command of what is asked, with its query and its body.
#[tactic(auto, using(crate::proofs::CommandLemmas::finding), unfolding(crate::specs::Commands::command_at))]
fn command_at(alloc: Global, to: &Destination<'_>, body: &[u8]) -> Result<Command, RouteFault>
    ensures read { IfOk result (λ command.
        command_at to.now.aim to.now.query.now body.now ≡ Ok command) }
    ensures fault { IfErr result (FaultFits (PostsBytes to.now.aim body.now)
        (command_at to.now.aim to.now.query.now body.now)) }
{
    match &to.aim {
        Aim::Card => Ok(Command::Card),
        Aim::Persons => Ok(reads_in(ReadingCommand::ReadPersons)),
        Aim::Form { code, version } => form(alloc, code, *version),
        Aim::Record { number } => Ok(reads_in(ReadingCommand::ReadRecord { number: *number })),
        Aim::Version { number, version } => Ok(reads_in(ReadingCommand::ReadVersion {
            number: *number,
            version: *version,
        })),
        Aim::Records => records(to.query).ok_or(BAD_QUERY),
        Aim::Trail => trail(to.query).ok_or(BAD_QUERY),
        Aim::Copy => copy(to.query).ok_or(BAD_QUERY),
        Aim::Posted(post) => posted_command(alloc, *post, body),
    }
}

// The request to the laboratory with the code, once its command is known.
fn asked_of(
    alloc: Global,
    lab: &Admitted<'_, LabCodes>,
    token: Option<Token>,
    command: Command,
) -> Result<Asked, RouteFault>
    ensures asks { IfOk result (λ asks. asked_of lab.now token (Ok command) ≡ Ok asks) }
    ensures fault { IfErr result (λ fault. fault ≡ Memory) }
{
    let lab = lab.own(alloc)?;
    Ok(Asked {
        lab,
        instruction: Instruction { token, command },
    })
}

// What a request asks at the place where it goes. Its command is found before its laboratory's code
// is copied, so a bad query or an empty body is never reported as out of memory.
#[tactic(auto, using(crate::proofs::CommandLemmas::asking))]
fn asked_at(
    alloc: Global,
    token: Option<Token>,
    to: &Destination<'_>,
    body: &[u8],
) -> Result<Asked, RouteFault>
    ensures asks { IfOk result (λ asks. asked_of to.now.lab token
        (command_at to.now.aim to.now.query.now body.now) ≡ Ok asks) }
    ensures fault { IfErr result (FaultFits (PostsBytes to.now.aim body.now)
        (asked_of to.now.lab token (command_at to.now.aim to.now.query.now body.now))) }
{
    match command_at(alloc, to, body) {
        Ok(command) => asked_of(alloc, &to.lab, token, command),
        Err(fault) => Err(fault),
    }
}

/// Returns what a request asks, and of which laboratory.
///
/// # Errors
/// - `NoRoute` if the laboratory code in the path is malformed, or the path isn't a place in a
///   laboratory;
/// - otherwise `Method` if the place has only other methods;
/// - otherwise `Body` if the query or the body that the command needs is refused;
/// - out of memory, only if it is known what the request asks, or if a body with a byte is posted.
pub fn command_of(
    alloc: Global,
    routes: &Routes,
    parts: &RequestParts<'_>,
) -> Result<Asked, RouteFault>
    ensures asks { IfOk result (λ asks. command_asked (parts_shown parts.now) ≡ Ok asks) }
    ensures fault { IfErr result (RouteFaultFits (parts_shown parts.now)) }
{
    match routes.destination_of(parts.method, parts.target) {
        Ok(to) => asked_at(alloc, parts.token, &to, parts.body),
        Err(refusal) => Err(RouteFault::Refused(refusal)),
    }
}
