//! A file of one byte, which a sync that failed may have lost: each clause of a file that is written
//! in place anew can be met.

ghost use Rattle.std.specs.Prelude.{◌≡◌, ◌∷◌, [], IsTrue, OnOk};

use lab_program_host::{Renewable, renew};
use std::io::{self, ErrorKind};

/// The byte that is read, the one that the disk has, and whether it was written since the opening.
#[derive(Drop)]
struct LostByte {
    read: u8,
    disk: u8,
    is_written: bool,
}

impl LostByte {
    /// A byte that is opened, of which the disk has another one.
    fn behind_a_failed_sync(read: u8, disk: u8) -> LostByte {
        LostByte {
            read,
            disk,
            is_written: false,
        }
    }
}

impl Renewable for LostByte {
    ghost seen = { λ file. file.read ∷ [] };

    ghost written = { λ file _. IsTrue file.is_written };

    ghost may_leave = { λ file left. left ≡ file.disk ∷ [] };

    ghost is_honest = { λ _. Unit {0} };

    fn length(&mut self) -> io::Result<usize> {
        Ok(1)
    }

    fn read(&mut self, at: usize, bytes: &mut [u8]) -> io::Result<()> {
        match bytes {
            [byte] if at == 0 => {
                *byte = self.read;
                Ok(())
            }
            _ => Err(ErrorKind::UnexpectedEof.into()),
        }
    }

    fn write(&mut self, at: usize, bytes: &[u8]) -> io::Result<()> {
        match bytes {
            [byte] if at == 0 => {
                self.read = *byte;
                self.is_written = true;
                Ok(())
            }
            _ => Err(ErrorKind::WriteZero.into()),
        }
    }

    fn sync(&mut self) -> io::Result<()> {
        if self.is_written {
            self.disk = self.read;
        }
        Ok(())
    }
}

/// Writes the byte anew, so that the disk has it.
fn renewed_byte(file: &mut LostByte) -> io::Result<()>
    ensures kept { OnOk result (file.new.disk ≡ file.new.read) }
    ensures same { OnOk result (file.new.read ≡ file.old.read) }
{
    renew(file)
}

#[test]
fn a_lost_byte_is_written_anew(rt: HostRuntime) {
    let mut file = LostByte::behind_a_failed_sync(7, 0);
    assert_eq!(rt; file.sync().is_ok(), true);
    assert_eq!(rt; (file.read, file.disk), (7, 0));
    assert_eq!(rt; renewed_byte(&mut file).is_ok(), true);
    assert_eq!(rt; (file.read, file.disk), (7, 7));
}
