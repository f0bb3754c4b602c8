//! Why a person was refused, and what a failed password leaves. Each refusal has a number and a
//! word, on which users and programs rely.
ghost use Rattle.std.specs.Prelude.{◌≡◌, Some, option_copied};
ghost use Rattle.lab_people_access.specs.declared.refusals.PeopleFault.TheVariants.{Failed, Refused};
ghost use Rattle.lab_people_access.specs.Refusals.{people_refusal_entry, fault_refusal, failure_person, failure_closing};

use crate::persons::Person;
use crate::policy::Rule;
use crate::sessions::Closing;
use lab_forms_texts::RefusalKind;
use std::fmt;
use thiserror::Error;

/// Why a person was refused. Its text is its word.
#[derive(Clone, Copy, Debug, PartialEq, Eq, Error)]
pub enum PeopleRefusal {
    /// No person has the code and the password, or the account of the person is locked or retired.
    Credentials,
    /// A session of the laboratory already has the token that the random words make.
    RandomRepeated,
    /// No session with the token is open: there is none, it is closed, or its time has passed.
    NoSession,
    /// The password has to be changed first.
    PasswordDue,
    /// The person has none of the roles that the rule wants.
    RoleWanted(Rule),
    /// The password has fewer than 12 or more than 128 bytes.
    BadPassword,
    /// The new password is the old one.
    SamePassword,
    /// Another person has or had the code.
    CodeTaken,
    /// The laboratory has no room for one more.
    LabFull,
    /// The command is about the caller's own account.
    OwnIssue,
    /// What another administrator asked for can still be confirmed.
    IssueOpen,
    /// The person who asked may not confirm.
    SamePerson,
    /// Nothing was asked for, or it is too old.
    NoIssue,
    /// There is no such person, or the person is retired.
    NoSuchPerson,
}

impl RefusalKind for PeopleRefusal {
    ghost listed = { people_refusal_entry };

    fn entry(&self) -> (u32, &'static str) {
        match self {
            PeopleRefusal::Credentials => (20, "credentials"),
            PeopleRefusal::RandomRepeated => (21, "random_repeated"),
            PeopleRefusal::NoSession => (22, "no_session"),
            PeopleRefusal::PasswordDue => (23, "password_due"),
            PeopleRefusal::RoleWanted(_) => (24, "role_wanted"),
            PeopleRefusal::BadPassword => (25, "bad_password"),
            PeopleRefusal::SamePassword => (26, "same_password"),
            PeopleRefusal::CodeTaken => (27, "code_taken"),
            PeopleRefusal::LabFull => (28, "lab_full"),
            PeopleRefusal::OwnIssue => (29, "own_issue"),
            PeopleRefusal::IssueOpen => (30, "issue_open"),
            PeopleRefusal::SamePerson => (31, "same_person"),
            PeopleRefusal::NoIssue => (32, "no_issue"),
            PeopleRefusal::NoSuchPerson => (33, "no_such_person"),
        }
    }
}

impl fmt::Display for PeopleRefusal {
    ghost use Rattle.std.specs.Prelude.{Some};
    ghost use Rattle.lab_people_access.specs.Refusals.{people_refusal_entry};

    ghost output = { λ refusal. Some (people_refusal_entry refusal).word };

    fn fmt<W: fmt::Write>(&self, f: &mut fmt::Formatter<W>) -> fmt::Result {
        f.write_str(self.word())
    }
}

/// What follows from a password that isn't accepted. The reply is the same in every case.
#[derive(Debug, Drop)]
pub enum Failure {
    /// The person, with one more failed password.
    Counted(Person),
    /// The person with the fifth failed password: locked from now on, with all sessions closed.
    Locking(Person),
    /// The person, who was already locked and stays as before, whatever the password was.
    AlreadyLocked(Person),
    /// There is no such person, or the person is retired or never had a password. The stray counter
    /// of the laboratory rises by one.
    Stray,
}

impl Failure {
    /// The person as counted; `None` if the failure counts as stray.
    pub fn person(&self) -> Option<&Person>
        ensures { option_copied result ≡ failure_person self.now }
    {
        match self {
            Failure::Counted(person) | Failure::Locking(person) | Failure::AlreadyLocked(person) =>
                Some(person),
            Failure::Stray => None,
        }
    }

    /// Which sessions of the person are closed.
    pub fn closing(&self) -> Closing
        ensures { result ≡ failure_closing self.now }
    {
        match self {
            Failure::Locking(_) => Closing::All,
            Failure::Counted(_) | Failure::AlreadyLocked(_) | Failure::Stray => Closing::Nothing,
        }
    }
}

/// Why a call about persons failed. Its text is its word.
#[derive(Debug, Drop, Error)]
pub enum PeopleFault {
    /// The code and the password weren't accepted, and this follows.
    Failed(Failure),
    /// The call was refused.
    Refused(PeopleRefusal),
}

impl PeopleFault {
    /// The refusal in the reply. After a failed password it is `Credentials` in every case.
    pub fn refusal(&self) -> PeopleRefusal
        ensures { result ≡ fault_refusal self.now }
    {
        match self {
            PeopleFault::Failed(_) => PeopleRefusal::Credentials,
            PeopleFault::Refused(refusal) => *refusal,
        }
    }

    /// The number of the fault: that of its refusal.
    pub fn number(&self) -> Option<u32>
        ensures { result ≡ Some (people_refusal_entry (fault_refusal self.now)).number }
    {
        self.refusal().number()
    }

    /// The word of the fault: that of its refusal.
    pub fn word(&self) -> &'static str
        ensures { result.now ≡ (people_refusal_entry (fault_refusal self.now)).word }
    {
        self.refusal().word()
    }
}

impl fmt::Display for PeopleFault {
    ghost use Rattle.std.specs.Prelude.{Some};
    ghost use Rattle.lab_people_access.specs.Refusals.{fault_refusal, people_refusal_entry};

    ghost output = { λ fault. Some (people_refusal_entry (fault_refusal fault)).word };

    fn fmt<W: fmt::Write>(&self, f: &mut fmt::Formatter<W>) -> fmt::Result {
        f.write_str(self.word())
    }
}

impl From<Failure> for PeopleFault {
    ghost from_gives = { λ failure fault. fault ≡ Failed failure };

    fn from(failure: Failure) -> PeopleFault {
        PeopleFault::Failed(failure)
    }
}

impl From<PeopleRefusal> for PeopleFault {
    ghost from_gives = { λ refusal fault. fault ≡ Refused refusal };

    fn from(refusal: PeopleRefusal) -> PeopleFault {
        PeopleFault::Refused(refusal)
    }
}
