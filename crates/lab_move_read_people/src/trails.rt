//! The trail of a laboratory.

ghost use Rattle.std.specs.Prelude.{◌≡◌, [], ◌∷◌, map, All, IfErr};
ghost use Rattle.sqlite_value.specs.declared.value.Value.TheVariants.{Int};
ghost use Rattle.std.specs.List.{list_all};
ghost use Rattle.lab_store_tables.specs.Meaning.{trail_of};
ghost use Rattle.lab_store_read_trail.specs.Private.Trails.{told_by};
ghost use Rattle.lab_store_read_trail.specs.Shown.{told_read};
ghost use Rattle.lab_move_tables.specs.KeptLabs.{is_kept_trail};
ghost use Rattle.lab_move_read_people.specs.Private.Kept.{IsTried};
ghost use Rattle.lab_move_read_people.specs.Kept.{TriesOld, are_counted};
ghost use Rattle.lab_move_tables.specs.Answering.{IsTaken};
ghost use Rattle.lab_move_tables.specs.Questions.{told_text};
ghost use Rattle.lab_move_tables.specs.Shown.{trail_shown};
ghost use Rattle.lab_move_read_people.specs.Readable.{AreTold, HasDoer, HasTrail};
ghost use Rattle.lab_move_read_people.specs.declared.faults.KeptFault.TheVariants.{Storage};
ghost use Rattle.lab_move_read_people.specs.Private.Trails.{is_counted_trail, is_kept_told, told_heads_of};

use crate::KeptFault;
use crate::cells::are_counted;
use crate::owners::theirs_if;
use lab_forms_texts::Series;
use lab_move_tables::told_rows;
use lab_records_kept::TrailRow;
use lab_store_read::Readable;
use lab_store_read_trail::{ToldHead, told_of_rows};
use sqlite::Row;
use std::alloc::Global;

// What rows show. They have to be so many, and numbered.
#[tactic(auto, using(crate::proofs::Found::told_back))]
fn told_tried(alloc: Global, rows: &[Row], count: u64) -> Result<Vec<ToldHead>, KeptFault>
    ensures tried { IsTried (are_counted 0 count rows.now)
        (λ made. made.items ≡ map told_read rows.now) result }
    ensures fault { IfErr result (λ fault. fault ≡ Storage → ¬ AreTold rows.now) }
{
    if !are_counted(rows, 0, count)? {
        return Err(KeptFault::NotKept);
    }
    Ok(told_of_rows(alloc, rows)?)
}

// The row of the trail, with the code of its person.
fn told_whole<D: Readable>(
    alloc: Global,
    conn: &mut D,
    lab: i64,
    head: ToldHead,
) -> Result<TrailRow, KeptFault>
    ensures { TriesOld (λ db t. HasDoer db t head) (λ t. is_kept_told t lab head)
        (λ t told. told ≡ told_by t head)
        (D.state conn.old) (D.state conn.new) result }
{
    let person = theirs_if(alloc, conn, lab, head.person)?;
    Ok(TrailRow {
        number: head.number,
        moment: head.moment,
        person,
        action: head.action,
        subject: head.subject,
    })
}

// The rows of the trail, with the codes of their persons.
fn trail_whole<D: Readable>(
    alloc: Global,
    conn: &mut D,
    lab: i64,
    heads: Vec<ToldHead>,
) -> Result<Series<TrailRow>, KeptFault>
    ensures { TriesOld (λ db t. All (HasDoer db t) heads.items)
        (λ t. list_all (is_kept_told t lab) heads.items)
        (λ t made. made ≡ map (told_by t) heads.items)
        (D.state conn.old) (D.state conn.new) result }
{
    let mut made = Series::new(alloc);
    for head in heads {
        let told = told_whole(alloc, conn, lab, head)?;
        made.push(told)?;
    }
    Ok(made)
}

// The own rows of the trail of the laboratory with the id. They have to be so many, and numbered.
fn told_heads_at<D: Readable>(
    alloc: Global,
    conn: &mut D,
    lab: i64,
    count: u64,
) -> Result<Vec<ToldHead>, KeptFault>
    ensures { TriesOld
        (λ db t. IsTaken db told_text (Int lab ∷ []) × AreTold (trail_shown t lab))
        (λ t. is_counted_trail t lab count)
        (λ t made. made.items ≡ told_heads_of t lab)
        (D.state conn.old) (D.state conn.new) result }
{
    let rows = told_rows(conn, lab)?;
    told_tried(alloc, &rows, count)
}

/// Returns the trail of the laboratory with the id, in the order of its numbers. It has to have
/// that number of rows.
///
/// # Errors
/// They aren't well kept, the store failed, a row isn't one that a program could have written, or
/// memory ran out.
pub fn trail_at<D: Readable>(
    alloc: Global,
    conn: &mut D,
    lab: i64,
    count: u64,
) -> Result<Series<TrailRow>, KeptFault>
    ensures { TriesOld (HasTrail lab) (λ t. is_kept_trail t lab count)
        (λ t made. made ≡ trail_of t lab)
        (D.state conn.old) (D.state conn.new) result }
{
    let heads = told_heads_at(alloc, conn, lab, count)?;
    trail_whole(alloc, conn, lab, heads)
}
