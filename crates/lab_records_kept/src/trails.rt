//! The trail: the word and the subject with which it lists each action.
ghost use Rattle.std.specs.Prelude.{◌≡◌, IfOk};
ghost use Rattle.lab_records_kept.specs.Trails.{action_word, action_of};

use lab_forms_texts::{Key, LabCode, Moment, Ordinal, OutOfMemory, PersonCode, Writing};
use lab_people_access::Roles;
use lab_seal_versions::Meaning;
use std::alloc::AllocError;

/// The action that a row of the trail lists.
#[derive(Clone, Copy)]
pub enum Action {
    /// The laboratory was founded.
    Found,
    /// A session was opened.
    Open,
    /// A session was closed by its person.
    Close,
    /// A password was refused.
    Refuse,
    /// An account was locked.
    Lock,
    /// A person changed their own password.
    Password,
    /// A person was enrolled.
    Enrol,
    /// A one-time word was asked for.
    Issue,
    /// A one-time word was confirmed.
    Confirm,
    /// A person's roles were set.
    Roles,
    /// A person was retired.
    Retire,
    /// An account was unlocked.
    Unlock,
    /// A version of a form was made.
    Form,
    /// A record was opened.
    Record,
    /// A value was entered.
    Entry,
    /// A record was amended.
    Amend,
    /// A version was signed.
    Sign,
}

impl Action {
    /// The word of the action.
    pub fn word(self) -> &'static str
        ensures { result.now ≡ action_word self }
    {
        match self {
            Action::Found => "found",
            Action::Open => "open",
            Action::Close => "close",
            Action::Refuse => "refuse",
            Action::Lock => "lock",
            Action::Password => "password",
            Action::Enrol => "enrol",
            Action::Issue => "issue",
            Action::Confirm => "confirm",
            Action::Roles => "roles",
            Action::Retire => "retire",
            Action::Unlock => "unlock",
            Action::Form => "form",
            Action::Record => "record",
            Action::Entry => "entry",
            Action::Amend => "amend",
            Action::Sign => "sign",
        }
    }
}

/// What a password was given for.
#[derive(Clone, Copy)]
pub enum Occasion {
    /// To open a session.
    Opening,
    /// To change the password.
    Changing,
    /// To sign.
    Signing,
}

/// What was done, and to what it was done.
#[derive(Drop)]
pub enum Deed {
    /// The laboratory with the code was founded.
    Found {
        lab: LabCode,
    },
    /// The session with the number was opened.
    Open {
        session: Ordinal,
    },
    /// The session with the number was closed by its person.
    Close {
        session: Ordinal,
    },
    /// A password was refused.
    Refuse {
        occasion: Occasion,
    },
    /// The person's account was locked.
    Lock {
        person: PersonCode,
    },
    /// The person changed their own password.
    Password {
        person: PersonCode,
    },
    /// The person was enrolled with these roles.
    Enrol {
        person: PersonCode,
        roles: Roles,
    },
    /// A one-time word was asked for, for the person.
    Issue {
        person: PersonCode,
    },
    /// The person's one-time word was confirmed.
    Confirm {
        person: PersonCode,
    },
    /// The person was given these roles.
    Roles {
        person: PersonCode,
        roles: Roles,
    },
    /// The person was retired.
    Retire {
        person: PersonCode,
    },
    /// The person's account was unlocked.
    Unlock {
        person: PersonCode,
    },
    /// The version of the form was made.
    Form {
        form: Key,
        version: Ordinal,
    },
    /// The record was opened.
    Record {
        record: Ordinal,
    },
    /// A value was entered under the key into the version of the record.
    Entry {
        record: Ordinal,
        version: Ordinal,
        key: Key,
    },
    /// The version of the record was opened by an amendment.
    Amend {
        record: Ordinal,
        version: Ordinal,
    },
    /// The version of the record was signed.
    Sign {
        record: Ordinal,
        version: Ordinal,
        meaning: Meaning,
    },
}

impl Deed {
    /// The action with which the trail lists the deed.
    pub fn action(&self) -> Action
        ensures { result ≡ action_of self.now }
    {
        match self {
            Deed::Found { .. } => Action::Found,
            Deed::Open { .. } => Action::Open,
            Deed::Close { .. } => Action::Close,
            Deed::Refuse { .. } => Action::Refuse,
            Deed::Lock { .. } => Action::Lock,
            Deed::Password { .. } => Action::Password,
            Deed::Enrol { .. } => Action::Enrol,
            Deed::Issue { .. } => Action::Issue,
            Deed::Confirm { .. } => Action::Confirm,
            Deed::Roles { .. } => Action::Roles,
            Deed::Retire { .. } => Action::Retire,
            Deed::Unlock { .. } => Action::Unlock,
            Deed::Form { .. } => Action::Form,
            Deed::Record { .. } => Action::Record,
            Deed::Entry { .. } => Action::Entry,
            Deed::Amend { .. } => Action::Amend,
            Deed::Sign { .. } => Action::Sign,
        }
    }
}

/// The subject of a row of the trail, as it is written.
pub type Subject = Writing;

/// A row of the trail.
pub struct TrailRow {
    /// The number of the row in the laboratory, from 1.
    pub number: Ordinal,
    /// When it was done.
    pub moment: Moment,
    /// Who did it, or whose password was given; `None` at a founding.
    pub person: Option<PersonCode>,
    /// What was done.
    pub action: Action,
    /// What it was done to.
    pub subject: Subject,
}

impl Drop for TrailRow {
    fn drop(self) {
        let TrailRow {
            number: _,
            moment: _,
            person: _,
            action: _,
            subject: _,
        } = self;
    }
}

impl TrailRow {
    /// Returns a copy. The only error is that memory ran out.
    ///
    /// # Errors
    /// Memory ran out.
    pub fn copy(&self) -> Result<TrailRow, OutOfMemory>
        ensures { IfOk result (λ copy. copy ≡ self.now) }
    {
        Ok(self.clone()?)
    }
}

impl Clone for TrailRow {
    ghost use Rattle.std.specs.Prelude.{◌≡◌};

    ghost is_clone = { λ row copy. copy ≡ row };

    fn clone(&self) -> Result<TrailRow, AllocError> {
        let person = self.person.clone()?;
        let subject = self.subject.clone()?;
        Ok(TrailRow {
            number: self.number,
            moment: self.moment,
            person,
            action: self.action,
            subject,
        })
    }
}
