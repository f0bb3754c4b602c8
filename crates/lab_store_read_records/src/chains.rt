//! The versions of a record, each of which amends the version before it as that version is now.

ghost use Rattle.std.specs.Prelude.{◌≡◌, ◌≢◌, None, [], ◌∷◌, ◌++◌, map, false, is_some, IfOk, IfErr, IfSome, IfNone, IsFalse, IsTrue, OnOk};
ghost use Rattle.lab_store_tables.specs.Columns.{format_in};
ghost use Rattle.lab_store_tables.specs.Meaning.{version_after, chained};
ghost use Rattle.lab_store_read_records.specs.Leaves.{leaf_of};
ghost use Rattle.lab_store_read.specs.Cells.{storage};
ghost use Rattle.lab_store_read_records.specs.Private.Chains.{origin_after, before_next};
ghost use Rattle.lab_store_read_records.specs.Readable.{is_placed, ArePlaced};

use crate::VersionLeaf;
use lab_forms_texts::{LabCode, Note, Ordinal, Series};
use lab_records_kept::{Record, Version};
use lab_seal_hashes::Digest;
use lab_seal_versions::{Amendment, Format, Origin};
use lab_store_read::{BadStore, ReadFault};
use std::alloc::Global;

// The format with a number, for a form that requires an approval or doesn't.
fn format_of(number: u32, approval: bool) -> Format
    ensures { result ≡ format_in number approval }
{
    if number == 1 {
        Format::One
    } else {
        Format::Two { approval }
    }
}

// The origin of a version with this number and reason, after a version with the digest, or as the
// first one. `None` for a first version with a later number, and for a later version that has no
// reason or the first number.
fn origin_after(number: Ordinal, reason: Option<Note>, before: Option<Digest>) -> Option<Origin>
    ensures value { IfSome result (λ origin. origin ≡ origin_after number reason before) }
    ensures none { IfNone result (IsFalse (is_placed (is_some before) number reason)) }
{
    match before {
        None => {
            if number != Ordinal::FIRST {
                return None;
            }
            Some(Origin::first())
        }
        Some(previous) => match reason {
            Some(reason) => Origin::amending(number, Amendment { previous, reason }),
            None => None,
        },
    }
}

/// Returns the version that its rows make, after a version with the digest, or as the first one. Of
/// the record, reads only the parts that aren't versions. Returns `None` if version 1 has a version
/// before it, or if a later version has none before it or has no reason.
pub fn version_after(cover: &Record, before: Option<Digest>, leaf: VersionLeaf) -> Option<Version>
    ensures value { IfSome result
        (λ version. version ≡ version_after cover.now before (leaf_of leaf)) }
    ensures none { IfNone result (IsFalse (is_placed (is_some before) leaf.number leaf.reason)) }
{
    let origin = origin_after(leaf.number, leaf.reason, before)?;
    Some(Version {
        format: format_of(leaf.format, cover.form.form.approval()),
        origin,
        opener: leaf.opener,
        opened: leaf.opened,
        rows: leaf.rows,
        signatures: leaf.signatures,
    })
}

// The digest of the last version, if there is one.
fn before_next(
    alloc: Global,
    lab: &LabCode,
    cover: &Record,
    made: &Series<Version>,
) -> Result<Option<Digest>, ReadFault>
    ensures value { IfOk result (λ digest. digest ≡ before_next lab.now cover.now made.now) }
    ensures fault { IfErr result (λ fault. fault ≢ storage) }
{
    match made.last() {
        Some(version) => Ok(Some(cover.digest_of(alloc, lab, version)?)),
        None => Ok(None),
    }
}

// Adds one more version, which amends the last one.
fn add_version(
    alloc: Global,
    lab: &LabCode,
    cover: &Record,
    made: &mut Series<Version>,
    leaf: VersionLeaf,
) -> Result<(), ReadFault>
    ensures value { OnOk result (made.new ≡ made.old
        ++ version_after cover.now (before_next lab.now cover.now made.old) (leaf_of leaf) ∷ []) }
    ensures fault { IfErr result (λ fault. fault ≡ storage → ¬ IsTrue (is_placed
        (is_some (before_next lab.now cover.now made.old)) leaf.number leaf.reason)) }
{
    let before = before_next(alloc, lab, cover, made)?;
    let version = version_after(cover, before, leaf).ok_or(ReadFault::Refused(BadStore))?;
    made.push(version)?;
    Ok(())
}

// Adds all versions after the others.
fn add_versions(
    alloc: Global,
    lab: &LabCode,
    cover: &Record,
    made: &mut Series<Version>,
    leaves: Vec<VersionLeaf>,
) -> Result<(), ReadFault>
    ensures value { OnOk result (made.new ≡ made.old
        ++ chained lab.now cover.now (before_next lab.now cover.now made.old)
        (map leaf_of leaves.items)) }
    ensures fault { IfErr result (λ fault. fault ≡ storage → ¬ ArePlaced
        (is_some (before_next lab.now cover.now made.old)) (map leaf_of leaves.items)) }
{
    for leaf in leaves {
        add_version(alloc, lab, cover, made, leaf)?;
    }
    Ok(())
}

/// Returns the versions of a record of the laboratory, made from their own rows: each after the
/// first amends the version before it. Of the record, reads everything but its versions.
///
/// # Errors
/// The store failed, a row isn't one that this program could have written, or memory ran out.
pub fn chain(
    alloc: Global,
    lab: &LabCode,
    cover: &Record,
    leaves: Vec<VersionLeaf>,
) -> Result<Series<Version>, ReadFault>
    ensures value { IfOk result
        (λ made. made ≡ chained lab.now cover.now None (map leaf_of leaves.items)) }
    ensures fault { IfErr result
        (λ fault. fault ≡ storage → ¬ ArePlaced false (map leaf_of leaves.items)) }
{
    let mut made = Series::new(alloc);
    add_versions(alloc, lab, cover, &mut made, leaves)?;
    Ok(made)
}
