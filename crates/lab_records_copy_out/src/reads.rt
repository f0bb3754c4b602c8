//! What the walk reads from a keeper: the head of a laboratory, and one of its records.

ghost use Rattle.std.specs.Prelude.{◌≡◌, ◌≤◌, None, IfOk, IfErr, OnOk, option_and_then, option_map};
ghost use Rattle.lab_records_copies.specs.CopyLines.{copy_line};
ghost use Rattle.lab_records_kept.specs.declared.needs.RecordWanted.TheVariants.{Numbered};
ghost use Rattle.lab_records_kept.specs.Parts.{part_of};
ghost use Rattle.lab_records_keeper.specs.Worlds.{Given, KeeperFaultFits, Lives, Shuts};
ghost use Rattle.lab_forms_texts.specs.Ordinals.{last_ordinal, ordinal_of};
ghost use Rattle.lab_records_copy_out.specs.Resting.{IsOnlyRead};
ghost use Rattle.lab_records_copy_out.specs.CopyTexts.{desk_order, record_at, record_need};
ghost use Rattle.lab_records_copy_out.specs.Private.CopyTexts.{last_walked};

use lab_copy_rows::{CopyLine, Edition};
use lab_records_keeper::{Keeper, KeeperFault};
use lab_records_kept::{LabCode, Moment, Need, Ordinal, Record, RecordWanted, Slice};

/// Reads the head of a laboratory: the part that is loaded when nothing more is needed.
///
/// # Errors
/// The store failed, or memory ran out.
pub(crate) fn head_of<S: Keeper>(
    keeper: &mut S,
    lab: &LabCode,
) -> Result<Option<Slice>, KeeperFault>
    ensures part { Given (S.world keeper.old) (S.world keeper.new) (IfOk result (λ found.
        found ≡ part_of (record_need None) ((S.world keeper.old).meaning lab.now))) }
    ensures lives { Given (S.world keeper.old) (S.world keeper.new)
        (OnOk result (Lives (S.world keeper.old) (S.world keeper.new))) }
    ensures fault { IfErr result (KeeperFaultFits (S.world keeper.old).may_refuse) }
    ensures cause { IfErr result (KeeperFaultFits
        (S.refuses_load keeper.old keeper.new lab.now (record_need None))) }
    ensures read { IsOnlyRead S.world S.rests keeper.old keeper.new }
    ensures shuts { Given (S.world keeper.old) (S.world keeper.new)
        (Shuts (S.world keeper.old) (S.world keeper.new)) }
{
    let need = Need {
        token: None,
        person: None,
        form: None,
        filed: None,
        list: None,
    };
    let loaded = keeper.load(lab, &need);
    drop(need);
    loaded
}

/// Reads the record with the number, if there is a laboratory that has one.
///
/// # Errors
/// The store failed, or memory ran out.
pub(crate) fn read_record<S: Keeper>(
    keeper: &mut S,
    lab: &LabCode,
    number: u32,
) -> Result<Option<Record>, KeeperFault>
    requires first { 1 ≤ number }
    requires last { number ≤ last_ordinal }
    ensures found { Given (S.world keeper.old) (S.world keeper.new) (IfOk result (λ found.
        found ≡ record_at number ((S.world keeper.old).meaning lab.now))) }
    ensures lives { Given (S.world keeper.old) (S.world keeper.new)
        (OnOk result (Lives (S.world keeper.old) (S.world keeper.new))) }
    ensures fault { IfErr result (KeeperFaultFits (S.world keeper.old).may_refuse) }
    ensures cause { IfErr result (KeeperFaultFits (S.refuses_load keeper.old keeper.new lab.now
        (record_need (option_map (λ n. Numbered n) (ordinal_of number))))) }
    ensures read { IsOnlyRead S.world S.rests keeper.old keeper.new }
    ensures shuts { Given (S.world keeper.old) (S.world keeper.new)
        (Shuts (S.world keeper.old) (S.world keeper.new)) }
{
    let need = need_of(number);
    let loaded = keeper.load(lab, &need);
    drop(need);
    match loaded {
        Ok(slice) => Ok(filed_in(slice)),
        Err(fault) => Err(fault),
    }
}

// The need of the record with the number, and of nothing else.
fn need_of(number: u32) -> Need
    ensures { result ≡ record_need (option_map (λ n. Numbered n) (ordinal_of number)) }
{
    Need {
        token: None,
        person: None,
        form: None,
        filed: Ordinal::new(number).map(|number| RecordWanted::Numbered { number }),
        list: None,
    }
}

// The record in a part, if it has one.
fn filed_in(slice: Option<Slice>) -> Option<Record>
    ensures { result ≡ option_and_then (λ slice. slice.filed) slice }
{
    slice?.into_filed()
}

/// Returns the number of the last record of a range that is kept: records are numbered from 1.
pub(crate) fn last_kept(slice: &Slice, to: Ordinal) -> u32
    ensures { result ≡ last_walked to slice.now.counts.records }
{
    let to = to.get();
    match u32::try_from(slice.counts.records) {
        Ok(kept) => to.min(kept),
        Err(_) => to,
    }
}

/// Makes the line with which the copy begins.
pub(crate) fn first_line(slice: Slice, from: Ordinal, to: Ordinal, moment: Moment) -> CopyLine
    ensures { result ≡ copy_line slice.code slice.name (desk_order from to moment) }
{
    let (code, name) = slice.into_naming();
    CopyLine {
        edition: Edition::Two,
        lab: code,
        from,
        to,
        person: None,
        name,
        moment,
    }
}
