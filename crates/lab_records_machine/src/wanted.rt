//! The part of a laboratory that an instruction needs.
ghost use Rattle.std.specs.Prelude.{◌≡◌, IfOk, IsTrue, OnErr};
ghost use Rattle.lab_records_machine.specs.declared.commands.Command.TheVariants.{In};
ghost use Rattle.lab_records_machine.specs.declared.commands.SessionCommand.TheVariants.{OnAccount, OnRecord};
ghost use Rattle.lab_records_machine.specs.Needs.{token_in, person_on_account, person_in, form_in, record_on_record, record_wanted, record_in, list_read, list_in, need_of, names_text};

use crate::commands::{
    AccountCommand, Command, Instruction, ReadingCommand, RecordCommand, SessionCommand,
};
use lab_forms_texts::{OutOfMemory, PersonCode, Tick};
use lab_records_kept::{FormWanted, ListWanted, Need, RecordWanted};
use lab_seal_hashes::{Digest, Token};

/// Returns the part of a laboratory that is needed to decide an instruction. Fails only if memory
/// runs out, and only if the command names a code, a key or a name, which is copied.
///
/// # Errors
/// Memory ran out.
pub fn needs(tick: &Tick, instruction: &Instruction) -> Result<Need, OutOfMemory>
    ensures need { IfOk result (λ need. need ≡ need_of tick.now instruction.now) }
    ensures memory { OnErr result (IsTrue (names_text instruction.now.command)) }
{
    let command = &instruction.command;
    let token = token_in(tick, &instruction.token, command);
    let list = list_in(command);
    let person = person_in(command)?;
    let form = form_in(command)?;
    let filed = record_in(command)?;
    Ok(Need {
        token,
        person,
        form,
        filed,
        list,
    })
}

// The digest of the token of the session in which the command is given.
fn token_in(tick: &Tick, token: &Option<Token>, command: &Command) -> Option<Digest>
    ensures { result ≡ token_in tick.now token.now command.now }
{
    match (command, token) {
        (Command::Card, _) => None,
        (Command::Open { .. }, _) => Some(Token::from_words(&tick.words).digest()),
        (Command::In(_), Some(token)) => Some(token.digest()),
        (Command::In(_), None) => None,
    }
}

// The person whom the command names.
fn person_in(command: &Command) -> Result<Option<PersonCode>, OutOfMemory>
    ensures person { IfOk result (λ person. person ≡ person_in command.now) }
    ensures memory { OnErr result (IsTrue (names_text command.now)) }
{
    match command {
        Command::Open { code, .. } => Ok(Some(code.copy()?)),
        Command::In(SessionCommand::OnAccount(command)) => person_on_account(command),
        _ => Ok(None),
    }
}

// The person whom a command on accounts names.
fn person_on_account(command: &AccountCommand) -> Result<Option<PersonCode>, OutOfMemory>
    ensures person { IfOk result (λ person. person ≡ person_on_account command.now) }
    ensures memory { OnErr result (IsTrue (names_text (In (OnAccount command.now)))) }
{
    match command {
        AccountCommand::Close | AccountCommand::ChangePassword { .. } => Ok(None),
        AccountCommand::Enrol { code, .. }
        | AccountCommand::AskIssue { code }
        | AccountCommand::ConfirmIssue { code }
        | AccountCommand::SetRoles { code, .. }
        | AccountCommand::Retire { code }
        | AccountCommand::Unlock { code } => Ok(Some(code.copy()?)),
    }
}

// The version of a form that the command needs.
fn form_in(command: &Command) -> Result<Option<FormWanted>, OutOfMemory>
    ensures form { IfOk result (λ form. form ≡ form_in command.now) }
    ensures memory { OnErr result (IsTrue (names_text command.now)) }
{
    match command {
        Command::In(SessionCommand::OnRecord(RecordCommand::MakeForm { code, .. })) => {
            Ok(Some(FormWanted::Last { code: code.copy()? }))
        }
        Command::In(SessionCommand::OnRecord(RecordCommand::OpenRecord { form, .. })) => {
            Ok(Some(FormWanted::Last { code: form.copy()? }))
        }
        Command::In(SessionCommand::Reading(ReadingCommand::ReadForm { code, version })) => {
            Ok(Some(FormWanted::Exact {
                code: code.copy()?,
                version: *version,
            }))
        }
        _ => Ok(None),
    }
}

// The record that the command needs.
fn record_in(command: &Command) -> Result<Option<RecordWanted>, OutOfMemory>
    ensures wanted { IfOk result (λ wanted. wanted ≡ record_in command.now) }
    ensures memory { OnErr result (IsTrue (names_text command.now)) }
{
    match command {
        Command::In(SessionCommand::OnRecord(command)) => record_on_record(command),
        Command::In(SessionCommand::Reading(command)) => Ok(record_wanted(command)),
        _ => Ok(None),
    }
}

// The record that a command needs which makes something of forms and records.
fn record_on_record(command: &RecordCommand) -> Result<Option<RecordWanted>, OutOfMemory>
    ensures wanted { IfOk result (λ wanted. wanted ≡ record_on_record command.now) }
    ensures memory { OnErr result (IsTrue (names_text (In (OnRecord command.now)))) }
{
    match command {
        RecordCommand::MakeForm { .. } => Ok(None),
        RecordCommand::OpenRecord { form, sample } => Ok(Some(RecordWanted::About {
            form: form.copy()?,
            sample: sample.copy()?,
        })),
        RecordCommand::Enter { number, .. }
        | RecordCommand::Amend { number, .. }
        | RecordCommand::Sign { number, .. } => {
            Ok(Some(RecordWanted::Numbered { number: *number }))
        }
    }
}

// The record that a command reads.
fn record_wanted(command: &ReadingCommand) -> Option<RecordWanted>
    ensures { result ≡ record_wanted command.now }
{
    match command {
        ReadingCommand::ReadRecord { number } | ReadingCommand::ReadVersion { number, .. } => {
            Some(RecordWanted::Numbered { number: *number })
        }
        ReadingCommand::ReadPersons
        | ReadingCommand::ReadForm { .. }
        | ReadingCommand::ReadRecords { .. }
        | ReadingCommand::ReadTrail { .. }
        | ReadingCommand::TakeCopy { .. } => None,
    }
}

// The list that the command needs.
fn list_in(command: &Command) -> Option<ListWanted>
    ensures { result ≡ list_in command.now }
{
    match command {
        Command::In(SessionCommand::Reading(command)) => list_read(command),
        _ => None,
    }
}

// The list that a command reads.
fn list_read(command: &ReadingCommand) -> Option<ListWanted>
    ensures { result ≡ list_read command.now }
{
    match command {
        ReadingCommand::ReadPersons => Some(ListWanted::Persons),
        ReadingCommand::ReadRecords { from, to } | ReadingCommand::TakeCopy { from, to } => {
            Some(ListWanted::Records {
                from: *from,
                to: *to,
            })
        }
        ReadingCommand::ReadTrail { from, to } => Some(ListWanted::Trail {
            from: *from,
            to: *to,
        }),
        ReadingCommand::ReadForm { .. }
        | ReadingCommand::ReadRecord { .. }
        | ReadingCommand::ReadVersion { .. } => None,
    }
}
