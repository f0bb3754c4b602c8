//! The contents of a founding's body, and the line that is printed for a founding.

ghost use Rattle.std.specs.Prelude.{◌≡◌, ◌<◌, ◌⊎◌, length, IfOk, IfErr, None, Ok, true, false, option_map};
ghost use Rattle.lab_records_kept.specs.Births.{newborn_lab};
ghost use Rattle.lab_wire_bodies.specs.Bodies.{body_named};
ghost use Rattle.lab_wire_bodies.specs.Foundings.{founding_named};
ghost use Rattle.lab_records_keeper.specs.declared.faults.PlacingFault.TheVariants.{Memory};
ghost use Rattle.lab_desk_foundings.specs.declared.faults.FoundFault.TheVariants.{Placing};
ghost use Rattle.lab_desk_foundings.specs.Faults.{found_fault_entry, is_taken, FoundFaultFits, FoundingFaultFits};
ghost use Rattle.lab_desk_foundings.specs.Foundings.{IsFounding, IsNewborn, founding_in, founded_line, refused_line, memory_line, shown};

use crate::faults::FoundFault;
use lab_forms_texts::{LabCode, OutOfMemory, Tick};
use lab_records_kept::Newborn;
use lab_records_machine::{Founding, bear};
use lab_wire_bodies::founding_of as founding_named;
use lab_wire_members::BodyRefusal;
use std::alloc::Global;

/// The most bytes of a founding's body.
pub const BODY_LIMIT: usize = 1_000_000;

// Reads the founding in a body within the limit.
fn founding_within(alloc: Global, body: &[u8]) -> Result<Founding, FoundFault>
    ensures read { IfOk result (IsFounding (body_named founding_named body.now)) }
    ensures fault { IfErr result (FoundingFaultFits (body_named founding_named body.now)) }
    ensures memory { IfErr result (λ fault. fault ≡ Placing Memory → 0 < length body.now) }
{
    let founding = founding_named(alloc, body)?;
    match founding.refusal() {
        Some(refusal) => Err(FoundFault::Birth(refusal)),
        None => Ok(founding),
    }
}

/// Reads the founding that a body names. A body over the limit isn't read.
///
/// # Errors
/// - the body isn't that of a founding, or a code or a name in it isn't allowed;
/// - otherwise two founders have one code;
/// - otherwise a password has fewer than 12 or more than 128 bytes;
/// - memory ran out, for any body except an empty one.
pub fn founding_of(alloc: Global, body: &[u8]) -> Result<Founding, FoundFault>
    ensures read { IfOk result (IsFounding (founding_in body.now)) }
    ensures fault { IfErr result (FoundingFaultFits (founding_in body.now)) }
    // An empty body is refused, which needs no memory:
    ensures memory { IfErr result (λ fault. fault ≡ Placing Memory → 0 < length body.now) }
{
    if body.len() > BODY_LIMIT {
        return Err(FoundFault::Body(BodyRefusal::BadBody));
    }
    founding_within(alloc, body)
}

/// Reads a founding's body, and returns what a keeper needs to found the laboratory with the code.
///
/// # Errors
/// The founding is refused, the store failed, or memory ran out.
pub fn newborn_of(
    alloc: Global,
    lab: &LabCode,
    tick: &Tick,
    body: &[u8],
) -> Result<Newborn, FoundFault>
    ensures born { IfOk result (λ newborn.
        IsNewborn lab.now tick.now (founding_in body.now) (newborn_lab newborn)) }
    // The keeper wasn't asked, so the fault is neither that the laboratory exists nor one of the
    // store:
    ensures fault { IfErr result (FoundFaultFits ⊥ ⊥ lab.now tick.now (founding_in body.now)) }
    // An empty body is refused, which needs no memory:
    ensures memory { IfErr result (λ fault. fault ≡ Placing Memory → 0 < length body.now) }
{
    match founding_of(alloc, body) {
        Ok(founding) => Ok(bear(lab.copy()?, founding, tick)),
        Err(fault) => Err(fault),
    }
}

/// Returns the line that reports a founding.
///
/// # Errors
/// Memory ran out.
pub fn founded_line(alloc: Global, lab: &LabCode) -> Result<Vec<u8>, OutOfMemory>
    ensures { IfOk result (λ line. line.items ≡ founded_line lab.now) }
{
    let code = lab.as_str();
    Ok(format!(in alloc; "founded {code}\n")?.into_bytes())
}

// The line that reports a refused founding.
fn refused_line(alloc: Global, fault: &FoundFault) -> Result<Vec<u8>, OutOfMemory>
    ensures { IfOk result (λ line. line.items ≡ refused_line (found_fault_entry fault.now)) }
{
    let number = fault.number().unwrap();
    let word = fault.word();
    Ok(format!(in alloc; "refused {number} {word}\n")?.into_bytes())
}

/// Returns the line that reports a founding that failed, and whether the founding was taken all the
/// same.
pub fn line_of_fault(alloc: Global, fault: &FoundFault) -> FoundingLine
    ensures taken { result.taken ≡ true → (is_taken fault.now ≡ true)
        × (shown (option_map (λ line. line.items) result.text)
        ≡ refused_line (found_fault_entry fault.now)) }
    ensures refused { result.taken ≡ false →
        (shown (option_map (λ line. line.items) result.text) ≡ memory_line)
        ⊎ ((is_taken fault.now ≡ false)
        × (shown (option_map (λ line. line.items) result.text)
        ≡ refused_line (found_fault_entry fault.now))) }
{
    match refused_line(alloc, fault) {
        Ok(text) => FoundingLine {
            taken: fault.is_taken(),
            text: Some(text),
        },
        Err(_) => FoundingLine::of_memory(),
    }
}

/// The line for a founding if memory runs out; it needs no memory.
const MEMORY_LINE: &[u8] = b"refused 90 memory\n";

/// The line that is printed for a founding, and whether the founding was taken.
#[derive(Drop)]
pub struct FoundingLine {
    /// Whether the founding was taken: it was, unless memory ran out or the store failed.
    pub taken: bool,
    /// The line, or `None` for the line that reports that memory ran out.
    pub text: Option<Vec<u8>>,
}

impl FoundingLine {
    /// Returns the line that reports that memory ran out.
    pub fn of_memory() -> FoundingLine
        ensures { result ≡ record { taken = false; text = None } }
    {
        FoundingLine {
            taken: false,
            text: None,
        }
    }

    /// Returns the bytes of the line.
    pub fn bytes(&self) -> &[u8]
        ensures { result.now ≡ shown (option_map (λ line. line.items) self.now.text) }
    {
        match &self.text {
            Some(line) => line.as_slice(),
            None => MEMORY_LINE,
        }
    }
}
