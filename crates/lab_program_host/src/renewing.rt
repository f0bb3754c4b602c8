//! Writes a file again in place, with the bytes that were read, so that the disk has what is read.

ghost use Rattle.std.specs.Prelude.{◌≡◌, ℕ, List, length, IfOk, OnOk};
ghost use Rattle.lab_program_host.specs.Renewing.{AreWritten, HasAt, IsLeft, IsPutAt};

use std::io;

/// A file whose bytes can be read, written in place and synchronized. Its disk may have lost what a
/// failed sync was to write: a sync says nothing about a byte that this handle hasn't written.
pub trait Renewable {
    /// The bytes that a read returns.
    ghost seen: { Self → List ℕ };

    /// Whether this handle has written the byte at a place.
    ghost written: { Self → ℕ → Type 0 };

    /// What a crash may leave in the file.
    ghost may_leave: { Self → List ℕ → Type 0 };

    /// Whether each call so far did what it returned.
    ghost is_honest: { Self → Type 0 };

    /// Returns how many bytes the file has.
    fn length(&mut self) -> io::Result<usize>
        ensures length { IfOk result
            (λ count. is_honest self.new → count ≡ length (seen self.old)) }
        ensures same { is_honest self.new → seen self.new ≡ seen self.old }
        ensures honest { is_honest self.new → is_honest self.old };

    /// Reads the bytes at a place, all that are requested.
    fn read(&mut self, at: usize, bytes: &mut [u8]) -> io::Result<()>
        ensures read { OnOk result (is_honest self.new → HasAt at bytes.new (seen self.old)) }
        ensures same { is_honest self.new → seen self.new ≡ seen self.old }
        ensures written { AreWritten 0 0 (written self.old) (written self.new) }
        ensures honest { is_honest self.new → is_honest self.old };

    /// Writes bytes at a place, all of them.
    fn write(&mut self, at: usize, bytes: &[u8]) -> io::Result<()>
        ensures put { OnOk result
            (is_honest self.new → IsPutAt at bytes.now (seen self.old) (seen self.new)) }
        ensures written { OnOk result
            (AreWritten at (length bytes.now) (written self.old) (written self.new)) }
        ensures honest { is_honest self.new → is_honest self.old };

    /// Synchronizes the file.
    fn sync(&mut self) -> io::Result<()>
        ensures left { OnOk result (is_honest self.new →
            (left : List ℕ) → may_leave self.new left →
            IsLeft (written self.old) (seen self.old) left) }
        ensures same { is_honest self.new → seen self.new ≡ seen self.old }
        ensures honest { is_honest self.new → is_honest self.old };
}

// Writes the bytes from a place on again, as they were read.
fn renew_part<F: Renewable>(file: &mut F, at: usize, bytes: &mut [u8]) -> io::Result<()>
    ensures same { OnOk result (F.is_honest file.new → F.seen file.new ≡ F.seen file.old) }
    ensures written { OnOk result
        (AreWritten at (length bytes.old) (F.written file.old) (F.written file.new)) }
    ensures honest { F.is_honest file.new → F.is_honest file.old }
{
    file.read(at, bytes)?;
    file.write(at, bytes)
}

/// How many bytes are read and written at a time.
const PART: usize = 16_384;

/// Writes all bytes of a file again in place, as they were read, and synchronizes it. A crash then
/// leaves exactly what is read, whatever a failed sync had lost before.
///
/// # Errors
/// A call failed: what a crash leaves is no better known than before.
pub fn renew<F: Renewable>(file: &mut F) -> io::Result<()>
    ensures same { OnOk result (F.is_honest file.new → F.seen file.new ≡ F.seen file.old) }
    ensures durable { OnOk result (F.is_honest file.new →
        (left : List ℕ) → F.may_leave file.new left → left ≡ F.seen file.new) }
{
    let length = file.length()?;
    let mut part = [0u8; PART];
    let mut at = 0;
    while at < length {
        let count = (length - at).min(PART);
        renew_part(file, at, &mut part[..count])?;
        at += count;
    }
    file.sync()
}
