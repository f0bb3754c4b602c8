//! How the rows of records are written from a keeper.

ghost use Rattle.std.specs.Prelude.{◌≡◌, ◌≤◌, ℕ, List, IfErr, OnOk};
ghost use Rattle.lab_copy_rows.specs.Outs.{Sends, counted_all};
ghost use Rattle.lab_records_keeper.specs.Worlds.{Given, Shuts};
ghost use Rattle.lab_forms_texts.specs.Ordinals.{last_ordinal};
ghost use Rattle.lab_copy_rows.specs.Csv.{csv_text};
ghost use Rattle.lab_records_copy_out.specs.Faults.{CopyFaultFits};
ghost use Rattle.lab_records_copy_out.specs.Resting.{IsOnlyRead};
ghost use Rattle.lab_records_copy_out.specs.CopyTexts.{record_rows, walked_to};

use crate::CopyOutFault;
use crate::progress::Progress;
use crate::wholes::give_wholes;
use lab_copy_rows::CopyOut;
use lab_records_keeper::Keeper;
use lab_records_kept::{LabCode, Ordinal};
use std::alloc::Global;
use std::io::Write;

/// A way to write the rows of records from a keeper.
pub trait RecordGiver<S: Keeper> {
    /// Why the store may refuse the records of the laboratory with this code, from a number to a
    /// last one, in a call between these two moments.
    ghost refuses_records: { S → S → List ℕ → ℕ → ℕ → Type 0 };

    /// Writes the rows of the records from a number to a last one, and reports the progress after
    /// each record.
    ///
    /// # Errors
    /// The store failed, memory ran out, or a write failed or took no byte. The beginning of the
    /// rows' text was written.
    fn give_records<W: Write, P: Progress>(
        &self,
        alloc: Global,
        keeper: &mut S,
        lab: &LabCode,
        from: Ordinal,
        last: u32,
        out: &mut CopyOut,
        writer: &mut W,
        progress: &mut P,
    ) -> Result<(), CopyOutFault>
        requires last { last ≤ last_ordinal }
        ensures text { (S.world keeper.old).is_live →
            Given (S.world keeper.old) (S.world keeper.new)
            (Sends (W.contents writer.old) (W.contents writer.new) (csv_text (record_rows lab.now
            (walked_to ((S.world keeper.old).meaning lab.now) from last))) result) }
        ensures counts { (S.world keeper.old).is_live →
            Given (S.world keeper.old) (S.world keeper.new)
            (OnOk result (out.new ≡ record out.old {
              counts = counted_all out.old.counts
                  (record_rows lab.now (walked_to ((S.world keeper.old).meaning lab.now) from last));
            })) }
        ensures fault { IfErr result
            (CopyFaultFits ⊥ (S.world keeper.old).may_refuse (Unit {0})) }
        ensures cause { IfErr result (CopyFaultFits ⊥
            (refuses_records keeper.old keeper.new lab.now from last) (Unit {0})) }
        ensures lives { (S.world keeper.old).is_live →
            Given (S.world keeper.old) (S.world keeper.new)
            (OnOk result (S.world keeper.new).is_live) }
        ensures read { IsOnlyRead S.world S.rests keeper.old keeper.new }
        ensures shuts { Given (S.world keeper.old) (S.world keeper.new)
            (Shuts (S.world keeper.old) (S.world keeper.new)) };
}

/// Reads each record whole, and then writes its rows: a way for every keeper.
#[derive(Clone, Copy, Debug, PartialEq, Eq)]
pub struct WholeRecords;

impl<S: Keeper> RecordGiver<S> for WholeRecords {
    ghost use Rattle.lab_records_copy_out.specs.Causes.{RefusesOne};

    ghost refuses_records = { RefusesOne S.Keeper };

    fn give_records<W: Write, P: Progress>(
        &self,
        alloc: Global,
        keeper: &mut S,
        lab: &LabCode,
        from: Ordinal,
        last: u32,
        out: &mut CopyOut,
        writer: &mut W,
        progress: &mut P,
    ) -> Result<(), CopyOutFault> {
        give_wholes(alloc, keeper, lab, from, last, out, writer, progress)
    }
}
