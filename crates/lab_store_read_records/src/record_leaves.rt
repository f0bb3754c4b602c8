//! All versions of a record, each as its own rows show it.

ghost use Rattle.std.specs.Prelude.{◌≡◌, [], ◌∷◌, ◌++◌, map, All};
ghost use Rattle.lab_store_tables.specs.Meaning.{leaves_of};
ghost use Rattle.lab_store_read.specs.Causes.{HasItsCause};
ghost use Rattle.lab_store_read.specs.Reads.{Reads, MayRead};
ghost use Rattle.lab_store_read_records.specs.Leaves.{leaf_of, leaf_by};
ghost use Rattle.lab_store_read_records.specs.Readable.{HasLeaf, HasWholeVersion};
ghost use Rattle.lab_store_read_records.specs.Shown.{versions_shown};
ghost use Rattle.lab_store_read_records.specs.declared.heads.VersionHead.{VersionHead};

use crate::{VersionHead, VersionLeaf, leaf_at, versions_at};
use lab_store_read::{ReadFault, Readable};
use std::alloc::Global;

// Adds the version with the row after the others.
fn add_leaf<D: Readable>(
    alloc: Global,
    conn: &mut D,
    made: &mut Vec<VersionLeaf>,
    head: VersionHead,
) -> Result<(), ReadFault>
    ensures reads { Reads (λ t _. map leaf_of made.new.items
        ≡ map leaf_of made.old.items ++ leaf_by t head ∷ [])
        (D.state conn.old) (D.state conn.new) result }
    ensures cause { HasItsCause (λ t. HasLeaf t head.id)
        (D.state conn.old) (D.state conn.new) result }
{
    let leaf = leaf_at(alloc, conn, head)?;
    made.push(leaf)?;
    Ok(())
}

// Adds the versions with the rows after the others.
fn add_leaves<D: Readable>(
    alloc: Global,
    conn: &mut D,
    made: &mut Vec<VersionLeaf>,
    heads: Vec<VersionHead>,
) -> Result<(), ReadFault>
    ensures reads { MayRead (λ t _. map leaf_of made.new.items
        ≡ map leaf_of made.old.items ++ map (leaf_by t) heads.items)
        (D.state conn.old) (D.state conn.new) result }
    ensures cause { HasItsCause
        (λ t. All (λ (head : VersionHead). HasLeaf t head.id) heads.items)
        (D.state conn.old) (D.state conn.new) result }
{
    for head in heads {
        add_leaf(alloc, conn, made, head)?;
    }
    Ok(())
}

/// Returns the whole versions of the record with the id, in the order of their numbers.
///
/// # Errors
/// The store failed, a row isn't one that this program could have written, or memory ran out.
pub fn leaves_at<D: Readable>(
    alloc: Global,
    conn: &mut D,
    kept: i64,
) -> Result<Vec<VersionLeaf>, ReadFault>
    ensures reads { Reads (λ t made. map leaf_of made.items ≡ leaves_of t kept)
        (D.state conn.old) (D.state conn.new) result }
    ensures cause { HasItsCause (λ t. All (HasWholeVersion t) (versions_shown t kept))
        (D.state conn.old) (D.state conn.new) result }
{
    let heads = versions_at(alloc, conn, kept)?;
    let mut made = Vec::new(alloc);
    add_leaves(alloc, conn, &mut made, heads)?;
    Ok(made)
}
