//! The body of a founding.
ghost use Rattle.std.specs.Prelude.{◌≡◌, Ok, Some, IfOk, IfErr, map};
ghost use Rattle.serde_json.specs.View.{view};
ghost use Rattle.lab_wire_bodies.specs.Foundings.{is_founding_body, founder_read, founding_behind, founding_of_three, founding_by, founding_named};
ghost use Rattle.lab_wire_members.specs.Readings.{FaultyInTurn};

use lab_forms_texts::{Names, PersonCodes};
use lab_records_machine::{Founder, Founding};
use lab_wire_members::{
    BodyFault, BodyRefusal, MemberWanted, each_has, elements_at, has_members, must, named_at,
    typed_at,
};
use serde_json::Value;
use std::alloc::Global;

const FOUNDING: [MemberWanted; 2] = [must!("founders", List), must!("name", Text)];

const FOUNDER: [MemberWanted; 3] = [
    must!("code", Text),
    must!("name", Text),
    must!("password", Text),
];

#[tactic(auto, unfolding(crate::specs::Foundings::is_founding_body))]
fn is_founding_body(value: &Value) -> bool
    ensures { result ≡ is_founding_body (view value.now) }
{
    has_members(value, &FOUNDING) && each_has(value, "founders", &FOUNDER)
}

#[tactic(auto, using(lab_wire_members::proofs::ReadingLemmas::in_turn), unfolding(crate::specs::Foundings::founder_read))]
fn founder(alloc: Global, value: &Value) -> Result<Founder, BodyFault>
    ensures read { IfOk result (λ founder. founder_read (view value.now) ≡ Ok founder) }
    ensures fault { IfErr result (FaultyInTurn (founder_read (view value.now))) }
{
    let code = named_at::<PersonCodes>(alloc, value, "code")?;
    let name = named_at::<Names>(alloc, value, "name")?;
    let password = typed_at(alloc, value, "password")?;
    Ok(Founder {
        code,
        name,
        password,
    })
}

// The laboratory's name, after its founders.
fn founding_behind(
    alloc: Global,
    first: Founder,
    second: Founder,
    third: Founder,
    value: &Value,
) -> Result<Founding, BodyFault>
    ensures read { IfOk result
        (λ founding. founding_behind first second third (view value.now) ≡ Ok founding) }
    ensures fault { IfErr result
        (FaultyInTurn (founding_behind first second third (view value.now))) }
{
    match named_at::<Names>(alloc, value, "name") {
        Ok(name) => Ok(Founding {
            name,
            first,
            second,
            third,
        }),
        Err(fault) => {
            drop(first);
            drop(second);
            drop(third);
            Err(fault)
        }
    }
}

// The three founders, then the laboratory's name.
#[tactic(auto, using(lab_wire_members::proofs::ReadingLemmas::in_turn))]
fn founding_of_three(
    alloc: Global,
    one: &Value,
    two: &Value,
    three: &Value,
    value: &Value,
) -> Result<Founding, BodyFault>
    ensures read { IfOk result (λ founding. founding_of_three (view one.now) (view two.now)
        (view three.now) (view value.now) ≡ Ok founding) }
    ensures fault { IfErr result (FaultyInTurn (founding_of_three (view one.now) (view two.now)
        (view three.now) (view value.now))) }
{
    let first = founder(alloc, one)?;
    let second = founder(alloc, two)?;
    let third = founder(alloc, three)?;
    founding_behind(alloc, first, second, third, value)
}

fn founding_by(alloc: Global, values: &[Value], value: &Value) -> Result<Founding, BodyFault>
    ensures read { IfOk result
        (λ founding. founding_by (Some (map view values.now)) (view value.now) ≡ Ok founding) }
    ensures fault { IfErr result
        (FaultyInTurn (founding_by (Some (map view values.now)) (view value.now))) }
{
    let [first, second, third] = values else {
        return Err(BodyFault::Refused(BodyRefusal::BadBody));
    };
    founding_of_three(alloc, first, second, third, value)
}

/// Reads a founding.
///
/// # Errors
/// The body is refused, or memory ran out.
#[tactic(auto, using(lab_wire_members::proofs::ReadingLemmas::in_turn), unfolding(crate::specs::Foundings::founding_named))]
pub fn founding(alloc: Global, value: &Value) -> Result<Founding, BodyFault>
    ensures read { IfOk result (λ founding. founding_named (view value.now) ≡ Ok founding) }
    ensures fault { IfErr result (FaultyInTurn (founding_named (view value.now))) }
{
    if !is_founding_body(value) {
        return Err(BodyFault::Refused(BodyRefusal::BadBody));
    }
    let Some(founders) = elements_at(value, "founders") else {
        return Err(BodyFault::Refused(BodyRefusal::BadBody));
    };
    founding_by(alloc, founders, value)
}
