//! The version of a form that a record of a list follows: it is read unless it is the form of the
//! record before.

ghost use Rattle.std.specs.Prelude.{◌≡◌, IfSome};
ghost use Rattle.lab_store_read.specs.Causes.{HasItsCause};
ghost use Rattle.lab_store_read.specs.Reads.{Reads, MayRead};
ghost use Rattle.lab_store_read_forms.specs.Private.FormsBehind.{IsAtItsId, form_with_id};
ghost use Rattle.lab_store_read_forms.specs.Readable.{HasFormAt};

use crate::form_at;
use crate::heads::FormAt;
use lab_store_read::{ReadFault, Readable};
use std::alloc::Global;

// The version of a form with the id.
fn form_with_id<D: Readable>(alloc: Global, conn: &mut D, id: i64) -> Result<FormAt, ReadFault>
    ensures reads { Reads (λ t found. found ≡ form_with_id t id)
        (D.state conn.old) (D.state conn.new) result }
    ensures cause { HasItsCause (λ t. HasFormAt t id) (D.state conn.old) (D.state conn.new) result }
{
    let form = form_at(alloc, conn, id)?;
    Ok(FormAt { id, form })
}

// The version of a form with the id. It is read unless it is the one before.
fn form_after<D: Readable>(
    alloc: Global,
    conn: &mut D,
    before: FormAt,
    id: i64,
) -> Result<FormAt, ReadFault>
    ensures reads { MayRead (λ t found. IsAtItsId t before → found ≡ form_with_id t id)
        (D.state conn.old) (D.state conn.new) result }
    ensures cause { HasItsCause (λ t. HasFormAt t id) (D.state conn.old) (D.state conn.new) result }
{
    if before.id == id {
        return Ok(before);
    }
    form_with_id(alloc, conn, id)
}

/// Returns the version of a form with the id. Reads it unless it is the one before.
///
/// # Errors
/// The store failed, a row isn't one that this program could have written, or memory ran out.
pub(crate) fn form_behind<D: Readable>(
    alloc: Global,
    conn: &mut D,
    before: Option<FormAt>,
    id: i64,
) -> Result<FormAt, ReadFault>
    ensures reads { MayRead (λ t found. IfSome before (IsAtItsId t) → found ≡ form_with_id t id)
        (D.state conn.old) (D.state conn.new) result }
    ensures cause { HasItsCause (λ t. HasFormAt t id) (D.state conn.old) (D.state conn.new) result }
{
    match before {
        Some(before) => form_after(alloc, conn, before, id),
        None => form_with_id(alloc, conn, id),
    }
}
