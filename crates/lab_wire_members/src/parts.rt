//! What several commands share: texts as they were typed, and lists of which each element is read.
ghost use Rattle.std.specs.Prelude.{◌≡◌, Ok, map, IfOk, IfErr};
ghost use Rattle.serde_json.specs.Data.{Data};
ghost use Rattle.serde_json.specs.View.{view};
ghost use Rattle.lab_wire_members.specs.Readings.{Reading, Faulty, FaultyInTurn, text_at};
ghost use Rattle.lab_wire_members.specs.Parts.{each_read};

use crate::readings::text_at;
use crate::refusals::BodyFault;
use lab_forms_texts::Typed;
use serde_json::Value;
use std::alloc::Global;

/// Reads the text at a name, as it was typed.
///
/// # Errors
/// The body is refused, or memory ran out.
pub fn typed_at(alloc: Global, value: &Value, name: &str) -> Result<Typed, BodyFault>
    ensures read { IfOk result (λ typed. text_at name.now (view value.now) ≡ Ok typed) }
    ensures fault { IfErr result (Faulty (text_at name.now (view value.now))) }
{
    match text_at(alloc, value, name) {
        Ok(text) => Ok(Typed::new(text)),
        Err(fault) => Err(fault),
    }
}

/// An element of the lists in the bodies of the group `G`.
pub trait Element<G>: Sized + Drop {
    /// The reading of a value.
    ghost says: { Data → Reading Self };

    /// Reads a value.
    fn read(alloc: Global, value: &Value) -> Result<Self, BodyFault>
        ensures read { IfOk result (λ it. says (view value.now) ≡ Ok it) }
        ensures fault { IfErr result (FaultyInTurn (says (view value.now))) };
}

/// Reads each value of a list.
///
/// # Errors
/// The body is refused, or memory ran out.
pub fn each_of<G, T: Element<G>>(alloc: Global, values: &[Value]) -> Result<Vec<T>, BodyFault>
    ensures read { IfOk result (λ list. each_read T.says (map view values.now) ≡ Ok list.items) }
    ensures fault { IfErr result (FaultyInTurn (each_read T.says (map view values.now))) }
{
    let mut list = Vec::new(alloc);
    for value in values {
        let element = T::read(alloc, value)?;
        list.push(element)?;
    }
    Ok(list)
}
