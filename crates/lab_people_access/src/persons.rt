//! One person of a laboratory.
ghost use Rattle.std.specs.Prelude.{◌≡◌, IfOk, option_copied};
ghost use Rattle.lab_people_access.specs.Persons.{newcomer, is_locked, unlocked_person, standing_ask};

use crate::passwords::Password;
use crate::roles::Roles;
use crate::times::seconds_since;
use lab_forms_texts::{Moment, Name, OutOfMemory, PersonCode};
use lab_seal_hashes::Verifier;
use std::alloc::AllocError;
use std::fmt;

/// The most persons of a laboratory, retired ones too.
pub const PERSONS_LIMIT: u32 = 500;

/// The seconds for which a lock lasts.
pub const SECONDS_OF_LOCK: u64 = 1800;

/// The most seconds for which a request of an administrator can be confirmed.
pub const SECONDS_OF_ASK: u64 = 604_800;

/// A person of a laboratory, with the account. Its `Debug` text is the code only.
pub struct Person {
    /// The code. It is never given to another person.
    pub code: PersonCode,
    /// The name that is printed beside signatures.
    pub name: Name,
    /// The roles of the person.
    pub roles: Roles,
    /// Whether the person is retired. Retirement is for good.
    pub retired: bool,
    /// The number of failed passwords since the last success or unlocking. After a lock has ended,
    /// counting starts anew.
    pub failures: u32,
    /// When the account was locked, if it was locked.
    pub locked: Option<Moment>,
    /// What is kept of the password.
    pub password: Password,
    /// What an administrator asked for, until it is confirmed or replaced; it may be too old to be
    /// confirmed.
    pub ask: Option<Ask>,
}

// `drop` is written out, so that a caller doesn't prove again how each part is dropped.
impl Drop for Person {
    fn drop(self) {
        let Person {
            code: _,
            name: _,
            roles: _,
            retired: _,
            failures: _,
            locked: _,
            password: _,
            ask: _,
        } = self;
    }
}

/// A one-time word that one administrator asked for, and that another has to confirm.
pub struct Ask {
    /// Who asked.
    pub asker: PersonCode,
    /// When the administrator asked.
    pub asked: Moment,
    /// The verifier that checks the first half.
    pub first: Verifier,
}

// `drop` is written out, so that a caller doesn't prove again how each part is dropped.
impl Drop for Ask {
    fn drop(self) {
        let Ask {
            asker: _,
            asked: _,
            first: _,
        } = self;
    }
}

impl Ask {
    /// Returns a copy. The only error is that memory ran out.
    ///
    /// # Errors
    /// Memory ran out.
    pub fn copy(&self) -> Result<Ask, OutOfMemory>
        ensures { IfOk result (λ copy. copy ≡ self.now) }
    {
        Ok(self.clone()?)
    }
}

impl Clone for Ask {
    ghost use Rattle.std.specs.Prelude.{◌≡◌};

    ghost is_clone = { λ ask copy. copy ≡ ask };

    fn clone(&self) -> Result<Ask, AllocError> {
        let asker = self.asker.clone()?;
        Ok(Ask {
            asker,
            asked: self.asked,
            first: self.first,
        })
    }
}

impl Person {
    /// Returns a person as enrolled: with no password yet, and with nothing that failed, is locked
    /// or was asked for.
    pub fn newcomer(code: PersonCode, name: Name, roles: Roles) -> Person
        ensures { result ≡ newcomer code name roles }
    {
        Person {
            code,
            name,
            roles,
            retired: false,
            failures: 0,
            locked: None,
            password: Password::Unset,
            ask: None,
        }
    }

    /// Returns a copy. The only error is that memory ran out.
    ///
    /// # Errors
    /// Memory ran out.
    pub fn copy(&self) -> Result<Person, OutOfMemory>
        ensures { IfOk result (λ copy. copy ≡ self.now) }
    {
        Ok(self.clone()?)
    }

    /// Whether the account is locked at the moment: for 1,800 seconds after the fifth failed
    /// password.
    pub fn is_locked(&self, moment: Moment) -> bool
        ensures { result ≡ is_locked self.now.locked moment }
    {
        match self.locked {
            Some(since) => seconds_since(since, moment) < SECONDS_OF_LOCK,
            None => false,
        }
    }

    /// Returns what an administrator asked for, while it can be confirmed: for seven days.
    pub fn standing_ask(&self, moment: Moment) -> Option<&Ask>
        ensures { option_copied result ≡ standing_ask self.now.ask moment }
    {
        let ask = self.ask.as_ref()?;
        if seconds_since(ask.asked, moment) > SECONDS_OF_ASK {
            return None;
        }
        Some(ask)
    }

    /// Returns the person without failed passwords and without a lock.
    pub fn without_lock(mut self) -> Person
        ensures { result ≡ unlocked_person self }
    {
        self.failures = 0;
        self.locked = None;
        self
    }

    /// Returns the person's code only.
    pub fn into_code(self) -> PersonCode
        ensures { result ≡ self.code }
    {
        let Person {
            code,
            name: _,
            roles: _,
            retired: _,
            failures: _,
            locked: _,
            password: _,
            ask: _,
        } = self;
        code
    }
}

impl Clone for Person {
    ghost use Rattle.std.specs.Prelude.{◌≡◌};

    ghost is_clone = { λ person copy. copy ≡ person };

    fn clone(&self) -> Result<Person, AllocError> {
        let code = self.code.clone()?;
        let name = self.name.clone()?;
        let ask = self.ask.clone()?;
        Ok(Person {
            code,
            name,
            roles: self.roles,
            retired: self.retired,
            failures: self.failures,
            locked: self.locked,
            password: self.password,
            ask,
        })
    }
}

impl fmt::Debug for Person {
    ghost use Rattle.std.specs.Prelude.{Some, ◌++◌, codes};

    ghost debug_output = { λ person. Some (codes "Person(" ++ person.code ++ codes ")") };

    fn fmt<W: fmt::Write>(&self, f: &mut fmt::Formatter<W>) -> fmt::Result {
        f.write_str("Person(")?;
        f.write_str(self.code.as_str())?;
        f.write_str(")")
    }
}
