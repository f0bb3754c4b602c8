//! Rows of the trail.

ghost use Rattle.std.specs.Prelude.{◌≡◌, [], ◌∷◌, ◌++◌, map, All, IfOk, IfErr};
ghost use Rattle.lab_records_kept.specs.Lookups.{rows_within};
ghost use Rattle.lab_store_tables.specs.Meaning.{trail_of};
ghost use Rattle.lab_store_read.specs.Causes.{HasItsCause};
ghost use Rattle.lab_store_read.specs.Cells.{storage};
ghost use Rattle.lab_store_read.specs.Reads.{Reads, MayRead};
ghost use Rattle.lab_store_read.specs.Known.{AreKnown};
ghost use Rattle.lab_store_read_trail.specs.Readable.{HasTold, HasDoer, HasWholeTold};
ghost use Rattle.lab_store_read_trail.specs.Private.Trails.{told_heads_within, told_by};
ghost use Rattle.lab_store_read_trail.specs.Shown.{told_shown_within, told_read};

use crate::actions::action_by;
use crate::cells::subject_of;
use crate::heads::ToldHead;
use lab_forms_texts::{Keys, Ordinal, Text};
use lab_records_kept::TrailRow;
use lab_store_read::asking::rows_by_range;
use lab_store_read::cells::{id_if, moment_of, ordinal_of, text_of};
use lab_store_read::{BadStore, KnownCode, ReadFault, Readable, code_if_any};
use sqlite::Row;
use std::alloc::Global;

// The rows of the trail with a number in the range, in the laboratory with the id.
fn told_rows<D: Readable>(conn: &mut D, lab: i64, from: u32, to: u32) -> Result<Vec<Row>, ReadFault>
    ensures reads { Reads (λ t rows. rows.items ≡ told_shown_within t lab from to)
        (D.state conn.old) (D.state conn.new) result }
    ensures cause { HasItsCause (λ t. Unit {0}) (D.state conn.old) (D.state conn.new) result }
{
    rows_by_range(
        conn,
        "SELECT number, moment, person, action, subject FROM trail WHERE lab = ?1 AND number >= ?2 AND number <= ?3 ORDER BY number",
        lab,
        from,
        to,
    )
}

// What a row shows.
fn told_of_row(alloc: Global, row: &Row) -> Result<ToldHead, ReadFault>
    ensures value { IfOk result (λ told. told ≡ told_read row.now) }
    ensures fault { IfErr result (λ fault. fault ≡ storage → ¬ HasTold row.now) }
{
    let number = ordinal_of(row, 0)?;
    let moment = moment_of(row, 1)?;
    let person = id_if(row, 2)?;
    let word: Text<Keys> = text_of(alloc, row, 3)?;
    let action = action_by(word.as_str()).ok_or(ReadFault::Refused(BadStore))?;
    let subject = subject_of(alloc, row, 4)?;
    Ok(ToldHead {
        number,
        moment,
        person,
        action,
        subject,
    })
}

/// Returns what the rows show.
///
/// # Errors
/// The store failed, a row isn't one that this program could have written, or memory ran out.
pub fn told_of_rows(alloc: Global, rows: &[Row]) -> Result<Vec<ToldHead>, ReadFault>
    ensures value { IfOk result (λ made. made.items ≡ map told_read rows.now) }
    ensures fault { IfErr result (λ fault. fault ≡ storage → ¬ All HasTold rows.now) }
{
    let mut made = Vec::new(alloc);
    for row in rows {
        made.push(told_of_row(alloc, row)?)?;
    }
    Ok(made)
}

// The own rows of the trail with a number in the range, in the laboratory with the id.
fn told_heads_at<D: Readable>(
    alloc: Global,
    conn: &mut D,
    lab: i64,
    from: Ordinal,
    to: Ordinal,
) -> Result<Vec<ToldHead>, ReadFault>
    ensures reads { Reads (λ t made. made.items ≡ told_heads_within t lab from to)
        (D.state conn.old) (D.state conn.new) result }
    ensures cause { HasItsCause (λ t. All HasTold (told_shown_within t lab from to))
        (D.state conn.old) (D.state conn.new) result }
{
    let rows = told_rows(conn, lab, from.get(), to.get())?;
    told_of_rows(alloc, &rows)
}

// The row of the trail, with the code of its person.
fn told_whole<D: Readable>(
    alloc: Global,
    conn: &mut D,
    known: &mut Vec<KnownCode>,
    head: ToldHead,
) -> Result<TrailRow, ReadFault>
    ensures reads { MayRead (λ t told. AreKnown t known.old.items →
        (told ≡ told_by t head) × AreKnown t known.new.items)
        (D.state conn.old) (D.state conn.new) result }
    ensures cause { HasItsCause (λ t. HasDoer t head) (D.state conn.old) (D.state conn.new) result }
{
    let person = code_if_any(alloc, conn, known, head.person)?;
    Ok(TrailRow {
        number: head.number,
        moment: head.moment,
        person,
        action: head.action,
        subject: head.subject,
    })
}

// Adds the row of the trail after the others.
fn add_told<D: Readable>(
    alloc: Global,
    conn: &mut D,
    known: &mut Vec<KnownCode>,
    made: &mut Vec<TrailRow>,
    head: ToldHead,
) -> Result<(), ReadFault>
    ensures reads { MayRead (λ t _. AreKnown t known.old.items →
        (made.new.items ≡ made.old.items ++ told_by t head ∷ []) × AreKnown t known.new.items)
        (D.state conn.old) (D.state conn.new) result }
    ensures cause { HasItsCause (λ t. HasDoer t head) (D.state conn.old) (D.state conn.new) result }
{
    let told = told_whole(alloc, conn, known, head)?;
    made.push(told)?;
    Ok(())
}

// Adds the rows of the trail after the others. The code of each person is read once.
fn add_all_told<D: Readable>(
    alloc: Global,
    conn: &mut D,
    made: &mut Vec<TrailRow>,
    heads: Vec<ToldHead>,
) -> Result<(), ReadFault>
    ensures reads { MayRead (λ t _. made.new.items ≡ made.old.items ++ map (told_by t) heads.items)
        (D.state conn.old) (D.state conn.new) result }
    ensures cause { HasItsCause (λ t. All (HasDoer t) heads.items)
        (D.state conn.old) (D.state conn.new) result }
{
    let mut known = Vec::new(alloc);
    for head in heads {
        add_told(alloc, conn, &mut known, made, head)?;
    }
    Ok(())
}

/// Returns the rows of the trail with a number in the range, in the laboratory with the id, in the
/// order of the numbers. The code of each person is read once.
///
/// # Errors
/// The store failed, a row isn't one that this program could have written, or memory ran out.
pub fn trail_within<D: Readable>(
    alloc: Global,
    conn: &mut D,
    lab: i64,
    from: Ordinal,
    to: Ordinal,
) -> Result<Vec<TrailRow>, ReadFault>
    ensures reads { Reads (λ t made. made.items ≡ rows_within from to (trail_of t lab))
        (D.state conn.old) (D.state conn.new) result }
    ensures cause { HasItsCause (λ t. All (HasWholeTold t) (told_shown_within t lab from to))
        (D.state conn.old) (D.state conn.new) result }
{
    let heads = told_heads_at(alloc, conn, lab, from, to)?;
    let mut made = Vec::new(alloc);
    add_all_told(alloc, conn, &mut made, heads)?;
    Ok(made)
}
