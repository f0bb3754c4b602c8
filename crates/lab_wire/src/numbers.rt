//! The numbers of a path and of a query.
ghost use Rattle.std.specs.Prelude.{◌≡◌};
ghost use Rattle.lab_wire.specs.Numbers.{ordinal_in};

use lab_forms_texts::{LAST_ORDINAL, Ordinal};
use lab_seal::fields::value_of;

/// The last ordinal.
const LAST: usize = LAST_ORDINAL as usize;

/// Returns the number of a record, of a version, or of a row of the trail, from its decimal digits
/// without leading zeros.
pub fn ordinal_in(digits: &str) -> Option<Ordinal>
    ensures { result ≡ ordinal_in digits.now }
{
    let value = value_of(digits.as_bytes())?;
    if value > LAST {
        return None;
    }
    Ordinal::new(value as u32)
}
