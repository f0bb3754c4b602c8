//! What the bytes of a request ask: first the request is read, then where it goes and what it asks
//! there.
ghost use Rattle.std.specs.Prelude.{◌≡◌, ℕ, List, Ok, IfOk, IfErr};
ghost use Rattle.lab_wire_heads.specs.Requests.{parts_shown, request_in};
ghost use Rattle.lab_wire.specs.Asked.{asked, RequestFaultFits};

use crate::refusals::{RequestFault, RequestRefusal};
use crate::{Asked, RouteFault, Routes, command_of};
use lab_wire_heads::{Received, RequestParts, request_parts};
use std::alloc::Global;

// What bytes with these parts ask.
fn ask_of(alloc: Global, routes: &Routes, parts: &RequestParts<'_>) -> Result<Asked, RequestFault>
    ensures asks { (bytes : List ℕ) → request_in bytes ≡ Ok (parts_shown parts.now) →
        IfOk result (λ asks. asked bytes ≡ Ok asks) }
    ensures fault { (bytes : List ℕ) → request_in bytes ≡ Ok (parts_shown parts.now) →
        IfErr result (RequestFaultFits bytes) }
{
    match command_of(alloc, routes, parts) {
        Ok(asks) => Ok(asks),
        Err(RouteFault::Refused(refusal)) => {
            Err(RequestFault::Refused(RequestRefusal::Route(refusal)))
        }
        Err(RouteFault::Memory) => Err(RequestFault::Memory),
    }
}

/// Reads what the bytes of a request ask, and of which laboratory. Ignores what follows the
/// request's body.
///
/// # Errors
/// The first of these that holds:
/// - `Head`, as `request_parts` returns it, if the bytes don't begin with a request whose body may
///   be read and is whole;
/// - `Route(NoRoute)` if the laboratory code in the path is malformed, or the path isn't a place in
///   a laboratory;
/// - `Route(Method)` if the place has only other methods;
/// - `Route(Body)` if the query or the body that the command needs is refused;
/// - out of memory, only if it is known what the request asks, or if the request posts a body with
///   a byte.
pub fn ask(alloc: Global, routes: &Routes, bytes: &[u8]) -> Result<Asked, RequestFault>
    ensures asks { IfOk result (λ asks. asked bytes.now ≡ Ok asks) }
    ensures fault { IfErr result (RequestFaultFits bytes.now) }
{
    match request_parts(bytes) {
        Ok(parts) => ask_of(alloc, routes, &parts),
        Err(refusal) => Err(RequestFault::Refused(RequestRefusal::Head(refusal))),
    }
}

/// Returns what a received request asks, and of which laboratory. Doesn't read its head again.
///
/// # Errors
/// The errors of `ask`, except `Head`.
pub fn ask_received(
    alloc: Global,
    routes: &Routes,
    request: &Received,
) -> Result<Asked, RequestFault>
    ensures asks { IfOk result (λ asks. asked request.now ≡ Ok asks) }
    ensures fault { IfErr result (RequestFaultFits request.now) }
{
    ask_of(alloc, routes, &request.parts())
}
