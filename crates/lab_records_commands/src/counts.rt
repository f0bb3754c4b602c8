//! Rules that count in 32 bits, while a laboratory counts in 64: a count above every limit is cut.
ghost use Rattle.std.specs.Prelude.{◌≡◌, min, option_copied};
ghost use Rattle.lab_people_access.specs.Openings.{opening};
ghost use Rattle.lab_people.specs.Accounts.{enrolling};

use lab_forms_texts::{Name, PersonCode, Tick};
use lab_people::enrol;
use lab_people_access::{Opened, PeopleFault, PeopleRefusal, Person, Roles, Session, open_session};

/// The greatest count of 32 bits. It is above the limits of sessions and of persons.
const MOST: u64 = 4_294_967_295;

// A count in 32 bits.
fn count_of_32_bits(count: u64) -> u32
    ensures { result ≡ min count 4294967295 }
{
    count.min(MOST) as u32
}

/// Opens a session; `sessions` is how many sessions the laboratory has had.
///
/// # Errors
/// The errors of `open_session`.
#[tactic(auto, using(crate::proofs::Cuts::opening_cut))]
pub fn open_counted(
    code: PersonCode,
    person: Option<Person>,
    password: &str,
    tick: &Tick,
    sessions: u64,
    repeated: Option<&Session>,
) -> Result<Opened, PeopleFault>
    ensures { result ≡ opening code person password.now tick.now sessions
        (option_copied repeated.entry) }
{
    open_session(
        code,
        person,
        password,
        tick,
        count_of_32_bits(sessions),
        repeated,
    )
}

/// Enrols a person; `persons` is how many persons the laboratory has.
///
/// # Errors
/// The errors of `enrol`.
#[tactic(auto, using(crate::proofs::Cuts::enrolling_cut))]
pub fn enrol_counted(
    code: PersonCode,
    name: Name,
    roles: Roles,
    holder: Option<&Person>,
    persons: u64,
) -> Result<Person, PeopleRefusal>
    ensures { result ≡ enrolling code name roles (option_copied holder.entry) persons }
{
    enrol(code, name, roles, holder, count_of_32_bits(persons))
}
