//! Records that are written whole, one after the other: each is read, its rows are written, and it
//! is dropped.

ghost use Rattle.std.specs.Prelude.{◌≡◌, ◌≤◌, [], ◌∷◌, IfErr, OnOk, option_map, option_to_list};
ghost use Rattle.lab_records_kept.specs.declared.needs.RecordWanted.TheVariants.{Numbered};
ghost use Rattle.lab_copy_rows.specs.Outs.{Sends, counted_all};
ghost use Rattle.lab_records_keeper.specs.Worlds.{Given, Lives, Shuts};
ghost use Rattle.lab_forms_texts.specs.Ordinals.{last_ordinal, ordinal_of};
ghost use Rattle.lab_copy_rows.specs.Csv.{csv_text};
ghost use Rattle.lab_records_copy_out.specs.Causes.{RefusesOne};
ghost use Rattle.lab_records_copy_out.specs.Faults.{CopyFaultFits};
ghost use Rattle.lab_records_copy_out.specs.Resting.{IsOnlyRead};
ghost use Rattle.lab_records_copy_out.specs.CopyTexts.{record_at, record_need, record_rows, walked_to};

use crate::CopyOutFault;
use crate::progress::Progress;
use crate::reads::read_record;
use lab_copy_rows::CopyOut;
use lab_records_copies::body_rows;
use lab_records_keeper::Keeper;
use lab_records_kept::{LabCode, Ordinal, Record};
use std::alloc::Global;
use std::io::Write;

/// Writes the rows of the records from a number to a last one, reads each record whole, and reports
/// the progress after each.
///
/// # Errors
/// The store failed, memory ran out, or a write failed or took no byte. The beginning of the rows'
/// text was written.
pub(crate) fn give_wholes<S: Keeper, W: Write, P: Progress>(
    alloc: Global,
    keeper: &mut S,
    lab: &LabCode,
    from: Ordinal,
    last: u32,
    out: &mut CopyOut,
    writer: &mut W,
    progress: &mut P,
) -> Result<(), CopyOutFault>
    requires { last ≤ last_ordinal }
    ensures text { (S.world keeper.old).is_live →
        Given (S.world keeper.old) (S.world keeper.new)
        (Sends (W.contents writer.old) (W.contents writer.new) (csv_text (record_rows lab.now
        (walked_to ((S.world keeper.old).meaning lab.now) from last))) result) }
    ensures counts { (S.world keeper.old).is_live →
        Given (S.world keeper.old) (S.world keeper.new)
        (OnOk result (out.new ≡ record out.old {
          counts = counted_all out.old.counts
              (record_rows lab.now (walked_to ((S.world keeper.old).meaning lab.now) from last));
        })) }
    ensures fault { IfErr result
        (CopyFaultFits ⊥ (S.world keeper.old).may_refuse (Unit {0})) }
    ensures cause { IfErr result (CopyFaultFits ⊥
        (RefusesOne S.Keeper keeper.old keeper.new lab.now from last) (Unit {0})) }
    ensures lives { (S.world keeper.old).is_live →
        Given (S.world keeper.old) (S.world keeper.new)
        (OnOk result (S.world keeper.new).is_live) }
    ensures read { IsOnlyRead S.world S.rests keeper.old keeper.new }
    ensures shuts { Given (S.world keeper.old) (S.world keeper.new)
        (Shuts (S.world keeper.old) (S.world keeper.new)) }
{
    let first = from.get();
    let end = last + 1;
    for number in first..end {
        give_at(alloc, keeper, lab, number, out, writer)?;
        progress.tell_records(number - first + 1, end - first);
    }
    Ok(())
}

// Writes the rows of the record with the number, if there is one.
fn give_at<S: Keeper, W: Write>(
    alloc: Global,
    keeper: &mut S,
    lab: &LabCode,
    number: u32,
    out: &mut CopyOut,
    writer: &mut W,
) -> Result<(), CopyOutFault>
    requires first { 1 ≤ number }
    requires last { number ≤ last_ordinal }
    ensures text { Given (S.world keeper.old) (S.world keeper.new)
        (Sends (W.contents writer.old) (W.contents writer.new) (csv_text (record_rows lab.now
        (option_to_list (record_at number ((S.world keeper.old).meaning lab.now))))) result) }
    ensures counts { Given (S.world keeper.old) (S.world keeper.new)
        (OnOk result (out.new ≡ record out.old {
          counts = counted_all out.old.counts
              (record_rows lab.now
              (option_to_list (record_at number ((S.world keeper.old).meaning lab.now))));
        })) }
    ensures fault { IfErr result
        (CopyFaultFits ⊥ (S.world keeper.old).may_refuse (Unit {0})) }
    ensures cause { IfErr result (CopyFaultFits ⊥ (S.refuses_load keeper.old keeper.new lab.now
        (record_need (option_map (λ n. Numbered n) (ordinal_of number)))) (Unit {0})) }
    ensures lives { Given (S.world keeper.old) (S.world keeper.new)
        (OnOk result (Lives (S.world keeper.old) (S.world keeper.new))) }
    ensures read { IsOnlyRead S.world S.rests keeper.old keeper.new }
    ensures shuts { Given (S.world keeper.old) (S.world keeper.new)
        (Shuts (S.world keeper.old) (S.world keeper.new)) }
{
    match read_record(keeper, lab, number) {
        Ok(Some(kept)) => give_whole(alloc, lab, kept, out, writer),
        Ok(None) => Ok(()),
        Err(fault) => Err(CopyOutFault::from(fault)),
    }
}

// Writes the rows of a record.
fn give_whole<W: Write>(
    alloc: Global,
    lab: &LabCode,
    kept: Record,
    out: &mut CopyOut,
    writer: &mut W,
) -> Result<(), CopyOutFault>
    ensures text { Sends (W.contents writer.old) (W.contents writer.new)
        (csv_text (record_rows lab.now (kept ∷ []))) result }
    ensures counts { OnOk result (out.new ≡
        record out.old { counts = counted_all out.old.counts (record_rows lab.now (kept ∷ [])) }) }
    ensures fault { IfErr result (CopyFaultFits ⊥ ⊥ (Unit {0})) }
{
    let records = [kept];
    let rows = body_rows(alloc, lab, &records)?;
    out.give(alloc, writer, rows.as_slice())?;
    Ok(())
}
