//! The commands of a laboratory.
ghost use Rattle.std.specs.Prelude.{◌≡◌};
ghost use Rattle.lab_records_machine.specs.Policy.{rule_on_account, rule_on_record, rule_of_reading, rule_of};

use lab_forms::Form;
use lab_forms_texts::{Key, Name, Note, Ordinal, PersonCode};
use lab_people_access::{Roles, Rule};
use lab_records_rules::{Altered, Item, Signing, Typed};
use lab_seal_hashes::{Digest, Token};

/// What a request asks of a laboratory.
#[derive(Drop)]
pub enum Command {
    /// The laboratory's card: its code and its name.
    Card,
    /// Open a session for a person, with code and password.
    Open { code: PersonCode, password: Typed },
    /// A command in a session.
    In(SessionCommand),
}

/// A command in a session.
#[derive(Drop)]
pub enum SessionCommand {
    /// A command on the session or an account.
    OnAccount(AccountCommand),
    /// A command that makes something of forms and records.
    OnRecord(RecordCommand),
    /// A command that only reads.
    Reading(ReadingCommand),
}

/// A command on a session or an account.
#[derive(Drop)]
pub enum AccountCommand {
    /// Close the session.
    Close,
    /// Change the password, with the old one.
    ChangePassword {
        old: Typed,
        new: Typed,
    },
    /// Enrol a person.
    Enrol {
        code: PersonCode,
        name: Name,
        roles: Roles,
    },
    /// Ask for a one-time word for a person.
    AskIssue {
        code: PersonCode,
    },
    /// Confirm what another administrator asked for.
    ConfirmIssue {
        code: PersonCode,
    },
    /// Set the roles of a person.
    SetRoles {
        code: PersonCode,
        roles: Roles,
    },
    /// Retire a person.
    Retire {
        code: PersonCode,
    },
    /// Unlock a person.
    Unlock {
        code: PersonCode,
    },
}

/// A command that makes something of forms and records.
#[derive(Drop)]
pub enum RecordCommand {
    /// Make a form, or its next version.
    MakeForm {
        code: Key,
        form: Form,
    },
    /// Open a record.
    OpenRecord {
        form: Key,
        sample: Name,
    },
    /// Enter a value of a record.
    Enter {
        number: Ordinal,
        item: Item,
        reason: Option<Note>,
    },
    /// Amend a record: a new version with other values.
    Amend {
        number: Ordinal,
        reason: Option<Note>,
        altered: Altered,
    },
    /// Sign a version of a record.
    Sign {
        number: Ordinal,
        version: Ordinal,
        digest: Digest,
        signing: Signing,
        password: Typed,
        code: Option<PersonCode>,
    },
}

/// A command that only reads.
#[derive(Drop)]
pub enum ReadingCommand {
    /// List the persons.
    ReadPersons,
    /// Read a version of a form.
    ReadForm { code: Key, version: Ordinal },
    /// Read a record, with the states of its versions.
    ReadRecord { number: Ordinal },
    /// Read a version of a record.
    ReadVersion { number: Ordinal, version: Ordinal },
    /// List the records from a number to a number.
    ReadRecords { from: Ordinal, to: Ordinal },
    /// List the rows of the trail from a number to a number.
    ReadTrail { from: Ordinal, to: Ordinal },
    /// Take an inspection copy of the records from a number to a number (21 CFR 11.10(b)).
    TakeCopy { from: Ordinal, to: Ordinal },
}

/// A command, and the token of the session in which it is given, if the request has one.
#[derive(Drop)]
pub struct Instruction {
    /// The token.
    pub token: Option<Token>,
    /// The command.
    pub command: Command,
}

impl SessionCommand {
    /// The rule of the policy for the command.
    pub fn rule(&self) -> Rule
        ensures { result ≡ rule_of self.now }
    {
        match self {
            SessionCommand::OnAccount(command) => command.rule(),
            SessionCommand::OnRecord(command) => command.rule(),
            SessionCommand::Reading(command) => command.rule(),
        }
    }
}

impl AccountCommand {
    fn rule(&self) -> Rule
        ensures { result ≡ rule_on_account self.now }
    {
        match self {
            AccountCommand::Close => Rule::CloseSession,
            AccountCommand::ChangePassword { .. } => Rule::ChangePassword,
            AccountCommand::Enrol { .. } => Rule::Enrol,
            AccountCommand::AskIssue { .. } => Rule::AskIssue,
            AccountCommand::ConfirmIssue { .. } => Rule::ConfirmIssue,
            AccountCommand::SetRoles { .. } => Rule::SetRoles,
            AccountCommand::Retire { .. } => Rule::Retire,
            AccountCommand::Unlock { .. } => Rule::Unlock,
        }
    }
}

impl RecordCommand {
    fn rule(&self) -> Rule
        ensures { result ≡ rule_on_record self.now }
    {
        match self {
            RecordCommand::MakeForm { .. } => Rule::MakeForm,
            RecordCommand::OpenRecord { .. } => Rule::OpenRecord,
            RecordCommand::Enter { .. } => Rule::Enter,
            RecordCommand::Amend { .. } => Rule::Amend,
            RecordCommand::Sign { signing, .. } => signing.rule(),
        }
    }
}

impl ReadingCommand {
    fn rule(&self) -> Rule
        ensures { result ≡ rule_of_reading self.now }
    {
        match self {
            ReadingCommand::ReadPersons => Rule::ReadPersons,
            ReadingCommand::ReadForm { .. } => Rule::ReadForm,
            ReadingCommand::ReadRecord { .. } => Rule::ReadRecord,
            ReadingCommand::ReadVersion { .. } => Rule::ReadVersion,
            ReadingCommand::ReadRecords { .. } => Rule::ReadRecords,
            ReadingCommand::ReadTrail { .. } => Rule::ReadTrail,
            ReadingCommand::TakeCopy { .. } => Rule::TakeCopy,
        }
    }
}
