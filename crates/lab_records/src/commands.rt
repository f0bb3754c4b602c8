//! The result of each command in a session.
ghost use Rattle.std.specs.Prelude.{◌≡◌, IfOk, IsTrue, OnErr};
ghost use Rattle.lab_records_machine.specs.Done.{done_on_account, done_on_record, done_reading, done_of};
ghost use Rattle.lab_records_machine.specs.Makings.{is_made_of, makes_on_record, makes_reading, makes};

use lab_forms_texts::{OutOfMemory, Series, Tick};
use lab_people_access::{Person, Session};
use lab_records_commands::{
    AskedSignature, amending_done, asked_signing_done, asking_done, changing_done, closed_done,
    confirming_done, copied_rows, enrolling_done, entering_done, form_read_done, making_done,
    opening_record_done, person_lines, record_lines, record_read_done, retiring_done,
    setting_roles_done, unlocking_done, version_read_done,
};
use lab_records_kept::Slice;
use lab_records_machine::{
    AccountCommand, Done, ReadingCommand, RecordCommand, Reply, SessionCommand,
};
use std::alloc::Global;
use std::mem;

/// Returns the result of a command in the session of the caller, on the part of the laboratory that
/// the command needs. Fails only if memory runs out, and only if something is made: a refusal is
/// always returned. The contract doesn't say what is left of the part.
///
/// # Errors
/// Memory ran out.
pub fn done_of(
    alloc: Global,
    slice: &mut Slice,
    tick: &Tick,
    session: Session,
    caller: Person,
    command: SessionCommand,
) -> Result<Done, OutOfMemory>
    ensures done { IfOk result (λ done. done ≡ done_of slice.old tick.now session caller command) }
    ensures memory { OnErr result (IsTrue (makes slice.old tick.now session caller command)) }
{
    match command {
        SessionCommand::OnAccount(command) => {
            done_on_account(alloc, slice, tick, session, caller, command)
        }
        SessionCommand::OnRecord(command) => {
            done_on_record(alloc, slice, tick, session, caller, command)
        }
        SessionCommand::Reading(command) => done_reading(alloc, slice, tick, &caller, &command),
    }
}

// The result of a command on a session or an account.
#[tactic(auto, unfolding(lab_records_machine::specs::Done::done_on_account))]
fn done_on_account(
    alloc: Global,
    slice: &mut Slice,
    tick: &Tick,
    session: Session,
    caller: Person,
    command: AccountCommand,
) -> Result<Done, OutOfMemory>
    ensures done { IfOk result
        (λ done. done ≡ done_on_account slice.old tick.now session caller command) }
    ensures memory { OnErr result
        (IsTrue (is_made_of (done_on_account slice.old tick.now session caller command))) }
{
    match command {
        AccountCommand::Close => closed_done(alloc, session),
        AccountCommand::ChangePassword { old, new } => {
            changing_done(alloc, caller, session, &old, &new, tick)
        }
        AccountCommand::Enrol { code, name, roles } => {
            let persons = slice.counts.persons;
            enrolling_done(alloc, code, name, roles, &slice.person, persons)
        }
        AccountCommand::AskIssue { code: _code } => {
            asking_done(alloc, caller.into_code(), slice.person.take(), tick)
        }
        AccountCommand::ConfirmIssue { code: _code } => {
            confirming_done(alloc, &caller.code, slice.person.take(), tick)
        }
        AccountCommand::SetRoles { code: _code, roles } => {
            setting_roles_done(alloc, &caller.code, slice.person.take(), roles)
        }
        AccountCommand::Retire { code: _code } => {
            retiring_done(alloc, &caller.code, slice.person.take())
        }
        AccountCommand::Unlock { code: _code } => {
            unlocking_done(alloc, &caller.code, slice.person.take())
        }
    }
}

// The result of a command that makes something of forms and records.
#[tactic(auto, unfolding(lab_records_machine::specs::Done::done_on_record, lab_records_machine::specs::Makings::makes_on_record))]
fn done_on_record(
    alloc: Global,
    slice: &mut Slice,
    tick: &Tick,
    session: Session,
    caller: Person,
    command: RecordCommand,
) -> Result<Done, OutOfMemory>
    ensures done { IfOk result
        (λ done. done ≡ done_on_record slice.old tick.now session caller command) }
    ensures memory { OnErr result
        (IsTrue (makes_on_record slice.old tick.now session caller command)) }
{
    let moment = tick.moment;
    match command {
        RecordCommand::MakeForm { code, form } => {
            making_done(alloc, code, form, slice.form.take())
        }
        RecordCommand::OpenRecord {
            form: _form,
            sample,
        } => { opening_record_done(alloc, slice, sample, caller.into_code(), moment) }
        RecordCommand::Enter { item, reason, .. } => {
            entering_done(alloc, slice, item, reason, caller.into_code(), moment)
        }
        RecordCommand::Amend {
            reason,
            altered,
            ..
        } => { amending_done(alloc, slice, reason, &altered, caller.into_code(), moment) }
        RecordCommand::Sign {
            version,
            digest,
            signing,
            password,
            code,
            ..
        } => {
            let asked = AskedSignature {
                version,
                digest,
                signing,
            };
            asked_signing_done(
                alloc, slice, moment, session, caller, asked, &password, &code,
            )
        }
    }
}

// The result of a command that only reads.
#[tactic(auto, unfolding(lab_records_machine::specs::Done::done_reading, lab_records_machine::specs::Makings::makes_reading))]
fn done_reading(
    alloc: Global,
    slice: &mut Slice,
    tick: &Tick,
    caller: &Person,
    command: &ReadingCommand,
) -> Result<Done, OutOfMemory>
    ensures done { IfOk result
        (λ done. done ≡ done_reading slice.old tick.now caller.now command.now) }
    ensures memory { OnErr result (IsTrue (makes_reading slice.old command.now)) }
{
    match command {
        ReadingCommand::ReadPersons => {
            let lines = person_lines(alloc, slice.persons.as_slice(), tick.moment)?;
            Ok(Done::Read(Reply::Persons(lines)))
        }
        ReadingCommand::ReadForm { .. } => Ok(form_read_done(slice.form.take())),
        ReadingCommand::ReadRecord { .. } => {
            let filed = slice.filed.take();
            record_read_done(alloc, &slice.code, filed)
        }
        ReadingCommand::ReadVersion { version, .. } => {
            let filed = slice.filed.take();
            version_read_done(alloc, &slice.code, filed, *version)
        }
        ReadingCommand::ReadRecords { .. } => {
            let lines = record_lines(alloc, slice.records.as_slice())?;
            Ok(Done::Read(Reply::Records(lines)))
        }
        ReadingCommand::ReadTrail { .. } => {
            let rows = mem::replace(&mut slice.trail, Series::new(alloc));
            Ok(Done::Read(Reply::Trail(rows)))
        }
        ReadingCommand::TakeCopy { from, to } => {
            let rows = copied_rows(alloc, slice, (*from, *to), &caller.code, tick.moment)?;
            Ok(Done::Read(Reply::Copied(rows)))
        }
    }
}
