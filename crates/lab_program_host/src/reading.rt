//! The bytes of a reader.

ghost use Rattle.std.specs.Prelude.{◌≡◌, IfOk, IfErr, IfSome};
ghost use Rattle.lab_program_host.specs.Faults.{IsReaderFault};

use crate::faults::ServerFault;
use std::alloc::Global;
use std::io::Read;

/// Returns all the bytes of a reader.
///
/// # Errors
/// `ServerFault` if the reader fails, or if memory runs out.
pub fn read_all<R: Read>(alloc: Global, reader: &mut R) -> Result<Vec<u8>, ServerFault>
    ensures bytes { IfOk result (λ bytes.
        IfSome (R.remaining reader.old) (λ all. bytes.items ≡ all)) }
    ensures fault { IfErr result IsReaderFault }
{
    let mut bytes = Vec::new(alloc);
    reader.read_to_end(&mut bytes)?;
    Ok(bytes)
}
