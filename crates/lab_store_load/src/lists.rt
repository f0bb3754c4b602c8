//! The counts of a laboratory, and the list that a command asks for.

ghost use Rattle.std.specs.Prelude.{◌≡◌, Some, IfSome};
ghost use Rattle.lab_records_kept.specs.declared.needs.ListWanted.TheVariants.{Persons, Records, Trail};
ghost use Rattle.lab_store_read_records.specs.Laboratories.{lab_by};
ghost use Rattle.lab_store_load.specs.Counts.{IsCounted};
ghost use Rattle.lab_store_load.specs.Lists.{counts_by, listed_by};
ghost use Rattle.lab_store_load.specs.Readable.{HasListOf};
ghost use Rattle.lab_store_read.specs.Causes.{HasItsCause};
ghost use Rattle.lab_store_read.specs.Reads.{Reads, MayRead};

use crate::counts::{Counted, persons_counted};
use lab_forms_texts::{Ordinal, Series};
use lab_people_access::Person;
use lab_records_kept::{LabCounts, ListWanted, Record, TrailRow};
use lab_store_read::{ReadFault, Readable};
use lab_store_read_forms::filed_within;
use lab_store_read_people::persons_at;
use lab_store_read_records::LabHead;
use lab_store_read_trail::trail_within;
use std::alloc::Global;

/// The list that a command asks for; the others are empty.
#[derive(Drop)]
pub struct Listed {
    /// Persons.
    pub persons: Series<Person>,
    /// Records.
    pub records: Series<Record>,
    /// Rows of the trail.
    pub trail: Series<TrailRow>,
}

/// Returns the counts of the laboratory. Its persons are counted unless they were counted before.
///
/// # Errors
/// The store failed, a row isn't one that this program could have written, or memory ran out.
pub fn counts_at<D: Readable>(
    conn: &mut D,
    counted: &Option<Counted>,
    lab: &LabHead,
) -> Result<LabCounts, ReadFault>
    ensures reads { MayRead (λ t counts. IfSome counted.now (IsCounted t) →
        counts ≡ counts_by t lab.now) (D.state conn.old) (D.state conn.new) result }
    ensures cause { HasItsCause (λ t. Unit {0}) (D.state conn.old) (D.state conn.new) result }
{
    let persons = persons_counted(conn, lab.id, counted)?;
    Ok(LabCounts {
        persons,
        sessions: lab.sessions,
        records: lab.records,
        trail: lab.trail,
    })
}

// All persons.
fn persons_listed<D: Readable>(
    alloc: Global,
    conn: &mut D,
    lab: &LabHead,
) -> Result<Listed, ReadFault>
    ensures reads { Reads (λ t listed. listed ≡ listed_by (lab_by t lab.now) (Some Persons))
        (D.state conn.old) (D.state conn.new) result }
    ensures cause { HasItsCause (λ t. HasListOf t lab.now.id Persons)
        (D.state conn.old) (D.state conn.new) result }
{
    let persons = persons_at(alloc, conn, lab.id)?;
    Ok(Listed {
        persons: Series::from_vec(persons),
        records: Series::new(alloc),
        trail: Series::new(alloc),
    })
}

// The records with a number in the range.
fn records_listed<D: Readable>(
    alloc: Global,
    conn: &mut D,
    lab: &LabHead,
    from: Ordinal,
    to: Ordinal,
) -> Result<Listed, ReadFault>
    ensures reads { Reads (λ t listed. listed
        ≡ listed_by (lab_by t lab.now) (Some (Records from to)))
        (D.state conn.old) (D.state conn.new) result }
    ensures cause { HasItsCause (λ t. HasListOf t lab.now.id (Records from to))
        (D.state conn.old) (D.state conn.new) result }
{
    let records = filed_within(alloc, conn, &lab.code, lab.id, from, to)?;
    Ok(Listed {
        persons: Series::new(alloc),
        records: Series::from_vec(records),
        trail: Series::new(alloc),
    })
}

// The rows of the trail with a number in the range.
fn trail_listed<D: Readable>(
    alloc: Global,
    conn: &mut D,
    lab: &LabHead,
    from: Ordinal,
    to: Ordinal,
) -> Result<Listed, ReadFault>
    ensures reads { Reads (λ t listed. listed ≡ listed_by (lab_by t lab.now) (Some (Trail from to)))
        (D.state conn.old) (D.state conn.new) result }
    ensures cause { HasItsCause (λ t. HasListOf t lab.now.id (Trail from to))
        (D.state conn.old) (D.state conn.new) result }
{
    let trail = trail_within(alloc, conn, lab.id, from, to)?;
    Ok(Listed {
        persons: Series::new(alloc),
        records: Series::new(alloc),
        trail: Series::from_vec(trail),
    })
}

// The list that a command asks for.
fn list_wanted<D: Readable>(
    alloc: Global,
    conn: &mut D,
    lab: &LabHead,
    wanted: &ListWanted,
) -> Result<Listed, ReadFault>
    ensures reads { Reads (λ t listed. listed ≡ listed_by (lab_by t lab.now) (Some wanted.now))
        (D.state conn.old) (D.state conn.new) result }
    ensures cause { HasItsCause (λ t. HasListOf t lab.now.id wanted.now)
        (D.state conn.old) (D.state conn.new) result }
{
    match wanted {
        ListWanted::Persons => persons_listed(alloc, conn, lab),
        ListWanted::Records { from, to } => records_listed(alloc, conn, lab, *from, *to),
        ListWanted::Trail { from, to } => trail_listed(alloc, conn, lab, *from, *to),
    }
}

/// Returns the list that a command asks for.
///
/// # Errors
/// The store failed, a row isn't one that this program could have written, or memory ran out.
pub fn listed_at<D: Readable>(
    alloc: Global,
    conn: &mut D,
    lab: &LabHead,
    list: &Option<ListWanted>,
) -> Result<Listed, ReadFault>
    ensures reads { MayRead (λ t listed. listed ≡ listed_by (lab_by t lab.now) list.now)
        (D.state conn.old) (D.state conn.new) result }
    ensures cause { HasItsCause (λ t. IfSome list.now (HasListOf t lab.now.id))
        (D.state conn.old) (D.state conn.new) result }
{
    match list {
        Some(wanted) => list_wanted(alloc, conn, lab, wanted),
        None => Ok(Listed {
            persons: Series::new(alloc),
            records: Series::new(alloc),
            trail: Series::new(alloc),
        }),
    }
}
