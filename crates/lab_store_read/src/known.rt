//! Codes of persons that were read, each kept with the id of the person's row, so that a list of
//! rows reads the code of each person once.

ghost use Rattle.std.specs.Prelude.{◌≡◌, [], ◌∷◌, ◌++◌, find, reverse, option_copied, option_map, IfOk, IsTrue, true};
ghost use Rattle.std.specs.Option.{option_map_or};
ghost use Rattle.std.specs.Ordering.{int_eq};
ghost use Rattle.lab_store_tables.specs.Meaning.{code_of};
ghost use Rattle.lab_store_read.specs.Causes.{HasItsCause};
ghost use Rattle.lab_store_read.specs.Reads.{Reads, MayRead};
ghost use Rattle.lab_store_read.specs.Shown.{codes_shown, shows_code};
ghost use Rattle.lab_store_read.specs.Known.{AreKnown};
ghost use Rattle.lab_store_read.specs.Private.Known.{code_among, known_by};

use crate::codes::code_at;
use crate::faults::ReadFault;
use crate::readable::Readable;
use lab_forms_texts::{OutOfMemory, PersonCode};
use std::alloc::Global;

/// The code of a person, with the id of the person's row.
#[derive(Drop)]
pub struct KnownCode {
    /// The id.
    pub id: i64,
    /// The code.
    pub code: PersonCode,
}

// The last one with the id.
fn known_with_id(known: &[KnownCode], id: i64) -> Option<&KnownCode>
    ensures { option_copied result ≡ find (λ one. int_eq one.id id) (reverse known.now) }
{
    known.iter().rev().find(|one| one.id == id)
}

// The code that is kept with the id, if one is. Fails only if memory runs out.
fn code_among(known: &[KnownCode], id: i64) -> Result<Option<PersonCode>, OutOfMemory>
    ensures { IfOk result (λ code. code ≡ code_among known.now id) }
{
    match known_with_id(known, id) {
        Some(one) => Ok(Some(one.code.copy()?)),
        None => Ok(None),
    }
}

// The code of the person with the id, which is read and is kept after the others.
fn new_code<D: Readable>(
    alloc: Global,
    conn: &mut D,
    known: &mut Vec<KnownCode>,
    id: i64,
) -> Result<PersonCode, ReadFault>
    ensures reads { Reads (λ t code. (code ≡ code_of t id)
        × (known.new.items ≡ known.old.items ++ known_by t id ∷ []))
        (D.state conn.old) (D.state conn.new) result }
    ensures cause { HasItsCause (λ t. IsTrue (shows_code (codes_shown t id)))
        (D.state conn.old) (D.state conn.new) result }
{
    let code = code_at(alloc, conn, id)?;
    let copy = code.copy()?;
    known.push(KnownCode { id, code: copy })?;
    Ok(code)
}

/// Returns the code of the person with the id. If no code is kept with the id, the code is read and
/// kept.
///
/// # Errors
/// The store failed, a row isn't one that this program could have written, or memory ran out.
pub fn code_once<D: Readable>(
    alloc: Global,
    conn: &mut D,
    known: &mut Vec<KnownCode>,
    id: i64,
) -> Result<PersonCode, ReadFault>
    ensures reads { MayRead (λ t code. AreKnown t known.old.items →
        (code ≡ code_of t id) × AreKnown t known.new.items)
        (D.state conn.old) (D.state conn.new) result }
    ensures cause { HasItsCause (λ t. IsTrue (shows_code (codes_shown t id)))
        (D.state conn.old) (D.state conn.new) result }
{
    let found = code_among(known, id)?;
    match found {
        Some(code) => Ok(code),
        None => new_code(alloc, conn, known, id),
    }
}

/// Returns the code of the person with the id, or `None` without an id. If no code is kept with the
/// id, the code is read and kept.
///
/// # Errors
/// The store failed, a row isn't one that this program could have written, or memory ran out.
pub fn code_if_any<D: Readable>(
    alloc: Global,
    conn: &mut D,
    known: &mut Vec<KnownCode>,
    id: Option<i64>,
) -> Result<Option<PersonCode>, ReadFault>
    ensures reads { MayRead (λ t code. AreKnown t known.old.items →
        (code ≡ option_map (code_of t) id) × AreKnown t known.new.items)
        (D.state conn.old) (D.state conn.new) result }
    ensures cause { HasItsCause
        (λ t. IsTrue (option_map_or (λ one. shows_code (codes_shown t one)) id true))
        (D.state conn.old) (D.state conn.new) result }
{
    match id {
        Some(id) => {
            let code = code_once(alloc, conn, known, id)?;
            Ok(Some(code))
        }
        None => Ok(None),
    }
}
