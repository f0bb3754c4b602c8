//! Why a command makes nothing: it is refused, or memory ran out.
ghost use Rattle.std.specs.Prelude.{◌≡◌, Err};

use crate::refusals::Refusal;
use lab_forms_texts::Fault;

/// Why a command makes nothing.
pub type CommandFault = Fault<Refusal>;

/// Returns the error, and drops all that was given, in one call.
pub fn fail<T, E, G: Drop>(error: E, _given: G) -> Result<T, E>
    ensures { result ≡ Err error }
{
    Err(error)
}
