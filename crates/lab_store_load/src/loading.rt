//! The part of a laboratory that a command needs.

ghost use Rattle.std.specs.Prelude.{◌≡◌, None, find, option_map, IfSome, OnErr};
ghost use Rattle.lab_records_kept.specs.Parts.{part_of};
ghost use Rattle.lab_store_read_records.specs.Heads.{lab_head};
ghost use Rattle.lab_store_tables.specs.Meaning.{has_code, meaning};
ghost use Rattle.lab_store_read.specs.Causes.{HasItsCause};
ghost use Rattle.lab_store_read.specs.Reads.{Reads, MayRead};
ghost use Rattle.lab_store_load.specs.Counts.{IsCounted};
ghost use Rattle.lab_store_load.specs.Readable.{HasPeople, HasThings, HasSlice, HasPart};
ghost use Rattle.lab_store_load.specs.Private.Parts.{slice_with, slice_counted, slice_by};

use crate::counts::Counted;
use crate::lists::{Listed, counts_at, listed_at};
use crate::people::people_at;
use crate::things::things_at;
use lab_forms_texts::LabCode;
use lab_records_kept::{LabCounts, Need, Slice};
use lab_store_read::{ReadFault, Readable};
use lab_store_read_records::{LabHead, lab_at};
use std::alloc::Global;

// The part of the laboratory with the row, with its counts and the list.
fn slice_with<D: Readable>(
    alloc: Global,
    conn: &mut D,
    head: LabHead,
    need: &Need,
    counts: LabCounts,
    listed: Listed,
) -> Result<Slice, ReadFault>
    ensures reads { MayRead (λ t slice. slice ≡ slice_with t need.now head counts listed)
        (D.state conn.old) (D.state conn.new) result }
    ensures cause { HasItsCause (λ t. HasPeople t head need.now × HasThings t head need.now)
        (D.state conn.old) (D.state conn.new) result }
{
    let people = people_at(alloc, conn, &head, need)?;
    let things = things_at(alloc, conn, &head, need)?;
    Ok(Slice {
        code: head.code,
        name: head.name,
        last: head.last,
        strays: head.strays,
        counts,
        session: people.session,
        caller: people.caller,
        person: people.person,
        form: things.form,
        filed: things.filed,
        persons: listed.persons,
        records: listed.records,
        trail: listed.trail,
    })
}

// The part of the laboratory with the row, with its counts.
fn slice_counted<D: Readable>(
    alloc: Global,
    conn: &mut D,
    head: LabHead,
    need: &Need,
    counts: LabCounts,
) -> Result<Slice, ReadFault>
    ensures reads { MayRead (λ t slice. slice ≡ slice_counted t need.now head counts)
        (D.state conn.old) (D.state conn.new) result }
    ensures cause { HasItsCause (λ t. HasSlice t head need.now)
        (D.state conn.old) (D.state conn.new) result }
{
    let listed = listed_at(alloc, conn, &head, &need.list)?;
    slice_with(alloc, conn, head, need, counts, listed)
}

// The part of the laboratory with the row. Its persons are counted unless they were counted before.
fn slice_at<D: Readable>(
    alloc: Global,
    conn: &mut D,
    counted: &Option<Counted>,
    head: LabHead,
    need: &Need,
) -> Result<Slice, ReadFault>
    ensures reads { MayRead (λ t slice. IfSome counted.now (IsCounted t) →
        slice ≡ slice_by t need.now head) (D.state conn.old) (D.state conn.new) result }
    ensures cause { HasItsCause (λ t. HasSlice t head need.now)
        (D.state conn.old) (D.state conn.new) result }
{
    let counts = counts_at(conn, counted, &head)?;
    slice_counted(alloc, conn, head, need, counts)
}

// The part of the laboratory with the code if its row was found, with the help of what was counted
// before. What is counted is kept.
fn slice_if<D: Readable>(
    alloc: Global,
    conn: &mut D,
    before: Option<Counted>,
    counted: &mut Option<Counted>,
    code: &LabCode,
    head: Option<LabHead>,
    need: &Need,
) -> Result<Option<Slice>, ReadFault>
    ensures reads { MayRead (λ t slice. IfSome before (IsCounted t) →
        head ≡ option_map lab_head (find (has_code code.now) t.labs) →
        (slice ≡ option_map (slice_by t need.now) head) × IfSome counted.new (IsCounted t))
        (D.state conn.old) (D.state conn.new) result }
    ensures cause { HasItsCause (λ t. IfSome head (λ one. HasSlice t one need.now))
        (D.state conn.old) (D.state conn.new) result }
    ensures failed { OnErr result (counted.new ≡ counted.old) }
{
    match head {
        Some(head) => {
            let lab = head.id;
            let code = code.copy()?;
            let slice = slice_at(alloc, conn, &before, head, need)?;
            *counted = Some(Counted {
                code,
                lab,
                persons: slice.counts.persons,
            });
            Ok(Some(slice))
        }
        None => {
            *counted = before;
            Ok(None)
        }
    }
}

/// Returns the part of a laboratory that a command needs, or `None` if no laboratory has the code.
/// Its persons are counted unless they were counted before, and what was counted is kept.
///
/// # Errors
/// The store failed, a row isn't one that this program could have written, or memory ran out. What
/// was counted is then forgotten.
pub fn load<D: Readable>(
    alloc: Global,
    conn: &mut D,
    counted: &mut Option<Counted>,
    code: &LabCode,
    need: &Need,
) -> Result<Option<Slice>, ReadFault>
    // If what was counted before is right:
    ensures reads { Reads (λ t found. IfSome counted.old (IsCounted t) →
        (found ≡ part_of need.now (meaning t code.now)) × IfSome counted.new (IsCounted t))
        (D.state conn.old) (D.state conn.new) result }
    ensures cause { HasItsCause (λ t. HasPart t code.now need.now)
        (D.state conn.old) (D.state conn.new) result }
    ensures failed { OnErr result (counted.new ≡ None) }
{
    let before = counted.take();
    let head = lab_at(alloc, conn, code)?;
    slice_if(alloc, conn, before, counted, code, head, need)
}
