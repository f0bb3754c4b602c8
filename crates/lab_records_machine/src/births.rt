//! What a founding brings to a laboratory, why a founding is refused, and the data of which a
//! keeper founds a laboratory.
ghost use Rattle.std.specs.Prelude.{◌≡◌, Some, None, Ok, bytes_eq};
ghost use Rattle.lab_records_kept.specs.Births.{newborn_lab};
ghost use Rattle.lab_records_machine.specs.Births.{birth_entry, is_code_shared, are_passwords, founding_refusal, founder_person, born};

use lab_forms_texts::{LabCode, Moment, Name, PersonCode, RefusalKind, Tick};
use lab_people_access::{Password, Person, Role, Roles};
use lab_records_kept::Newborn;
use lab_records_rules::Typed;
use lab_seal_hashes::founder_salts;
use std::fmt;
use thiserror::Error;

/// One of the persons who found a laboratory, and who become its administrators.
#[derive(Drop)]
pub struct Founder {
    /// The code.
    pub code: PersonCode,
    /// The printed name.
    pub name: Name,
    /// The password, as it was typed.
    pub password: Typed,
}

/// What a founding brings to a laboratory: its name, and three administrators.
#[derive(Drop)]
pub struct Founding {
    /// The laboratory's name.
    pub name: Name,
    /// The first founder.
    pub first: Founder,
    /// The second founder.
    pub second: Founder,
    /// The third founder.
    pub third: Founder,
}

/// Why a laboratory isn't founded. A refusal is printed as its word.
#[derive(Clone, Copy, Debug, PartialEq, Eq, Error)]
pub enum BirthRefusal {
    /// Two founders have the same code.
    CodeTaken,
    /// A password has fewer than 12 or more than 128 bytes.
    BadPassword,
    /// A laboratory already has the code.
    LabExists,
}

impl RefusalKind for BirthRefusal {
    ghost listed = { birth_entry };

    fn entry(&self) -> (u32, &'static str) {
        match self {
            BirthRefusal::CodeTaken => (27, "code_taken"),
            BirthRefusal::BadPassword => (25, "bad_password"),
            BirthRefusal::LabExists => (64, "lab_exists"),
        }
    }
}

impl fmt::Display for BirthRefusal {
    ghost use Rattle.std.specs.Prelude.{Some};
    ghost use Rattle.lab_records_machine.specs.Births.{birth_entry};

    ghost output = { λ refusal. Some (birth_entry refusal).word };

    fn fmt<W: fmt::Write>(&self, f: &mut fmt::Formatter<W>) -> fmt::Result {
        f.write_str(self.word())
    }
}

impl Founding {
    /// Returns why no laboratory can be founded so, whichever laboratories there are; `None` if one
    /// can be. A code that two founders share comes before a password.
    pub fn refusal(&self) -> Option<BirthRefusal>
        ensures { result ≡ founding_refusal self.now }
    {
        if self.is_code_shared() {
            return Some(BirthRefusal::CodeTaken);
        }
        if !self.are_passwords() {
            return Some(BirthRefusal::BadPassword);
        }
        None
    }

    // Whether two of the founders have the same code.
    fn is_code_shared(&self) -> bool
        ensures { result ≡ is_code_shared self.now }
    {
        is_same(&self.first.code, &self.second.code)
            || is_same(&self.first.code, &self.third.code)
            || is_same(&self.second.code, &self.third.code)
    }

    // Whether every founder's password may be chosen.
    fn are_passwords(&self) -> bool
        ensures { result ≡ are_passwords self.now }
    {
        Password::admits(self.first.password.as_str())
            && Password::admits(self.second.password.as_str())
            && Password::admits(self.third.password.as_str())
    }
}

impl Founder {
    // The founder as an administrator, with the password, chosen at the moment, and the salt.
    fn into_person(self, salt: [u8; 16], moment: Moment) -> Person
        ensures { result ≡ founder_person self salt moment }
    {
        let password = Password::choose(self.password.as_str(), salt, moment);
        let roles = Roles::none().with(Role::Administrator);
        let mut person = Person::newcomer(self.code, self.name, roles);
        person.password = password;
        person
    }
}

fn is_same(one: &PersonCode, other: &PersonCode) -> bool
    ensures { result ≡ bytes_eq one.now other.now }
{
    one.as_str() == other.as_str()
}

/// Returns the data of which a keeper founds the laboratory with the code, if no laboratory has
/// that code, which the keeper tests. Each of the three administrators has a salt of their own. The
/// founding isn't refused.
#[tactic(auto, using(crate::proofs::BirthLemmas::born_unrefused))]
pub fn bear(code: LabCode, founding: Founding, tick: &Tick) -> Newborn
    requires { founding_refusal founding ≡ None }
    ensures { born None code tick.now founding ≡ Ok (newborn_lab result) }
{
    let Founding {
        name,
        first,
        second,
        third,
    } = founding;
    let [first_salt, second_salt, third_salt] = founder_salts(&tick.words);
    let moment = tick.moment;
    Newborn {
        first: first.into_person(first_salt, moment),
        second: second.into_person(second_salt, moment),
        third: third.into_person(third_salt, moment),
        code,
        name,
        moment,
    }
}
