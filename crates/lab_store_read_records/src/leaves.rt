//! Whole versions, each as its own rows show it.

ghost use Rattle.std.specs.Prelude.{◌≡◌};
ghost use Rattle.lab_store_read_records.specs.Leaves.{leaf_of, leaf_by};
ghost use Rattle.lab_store_read_records.specs.Readable.{HasLeaf};
ghost use Rattle.lab_store_read.specs.Causes.{HasItsCause};
ghost use Rattle.lab_store_read.specs.Reads.{Reads};

use crate::entries::entries_at;
use crate::heads::VersionHead;
use crate::signatures::signatures_at;
use lab_forms_texts::{Moment, Note, Ordinal, PersonCode, Series};
use lab_records_kept::Signature;
use lab_seal_versions::EntryRows;
use lab_store_read::{ReadFault, Readable};
use std::alloc::Global;

/// A version as its own rows show it. The rows don't show what the version amends.
#[derive(Drop)]
pub struct VersionLeaf {
    /// Its number in the record.
    pub number: Ordinal,
    /// The number of the format of its text.
    pub format: u32,
    /// The person who opened it.
    pub opener: PersonCode,
    /// When it was opened.
    pub opened: Moment,
    /// Why it amends the one before it.
    pub reason: Option<Note>,
    /// Its rows in the order in which they were entered.
    pub rows: EntryRows,
    /// Its signatures in the order in which they were given.
    pub signatures: Series<Signature>,
}

/// Returns the version with the row, with its entries and signatures.
///
/// # Errors
/// The store failed, a row isn't one that this program could have written, or memory ran out.
pub fn leaf_at<D: Readable>(
    alloc: Global,
    conn: &mut D,
    head: VersionHead,
) -> Result<VersionLeaf, ReadFault>
    ensures reads { Reads (λ t leaf. leaf_of leaf ≡ leaf_by t head)
        (D.state conn.old) (D.state conn.new) result }
    ensures cause { HasItsCause (λ t. HasLeaf t head.id)
        (D.state conn.old) (D.state conn.new) result }
{
    let rows = entries_at(alloc, conn, head.id)?;
    let signatures = signatures_at(alloc, conn, head.id)?;
    Ok(VersionLeaf {
        number: head.number,
        format: head.format,
        opener: head.opener,
        opened: head.opened,
        reason: head.reason,
        rows: EntryRows::new(rows),
        signatures: Series::from_vec(signatures),
    })
}
