//! Reads the JSON value of a body from its bytes.
ghost use Rattle.std.specs.Prelude.{◌≡◌, Some, IfOk, IfErr};
ghost use Rattle.serde_json.specs.View.{view};
ghost use Rattle.lab_wire_members.specs.Values.{json_of, JsonFaultFits};

use crate::refusals::{BodyFault, BodyRefusal};
use serde_json::Value;
use std::alloc::Global;

/// Reads the JSON value of a body. Memory runs out only if the body has at least one byte.
///
/// # Errors
/// The body is refused, or memory ran out.
pub fn value_of(alloc: Global, body: &[u8]) -> Result<Value, BodyFault>
    ensures read { IfOk result (λ value. json_of body.now ≡ Some (view value)) }
    ensures fault { IfErr result (JsonFaultFits body.now) }
{
    match Value::from_slice(alloc, body) {
        Ok(value) => Ok(value),
        Err(fault) if fault.is_memory() => Err(BodyFault::Memory),
        Err(_) => Err(BodyFault::Refused(BodyRefusal::BadBody)),
    }
}
