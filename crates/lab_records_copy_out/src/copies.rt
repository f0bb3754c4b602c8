//! How a copy is written: its beginning, the rows of its records, and its end.

ghost use Rattle.std.specs.Prelude.{◌≡◌, ◌≤◌, None, Err, IsSome, IfErr, MatchOption, OnOk};
ghost use Rattle.lab_copy_rows.specs.Outs.{Sends};
ghost use Rattle.lab_records_keeper.specs.Worlds.{Given, Lives, Shuts};
ghost use Rattle.lab_forms_texts.specs.Ordinals.{last_ordinal};
ghost use Rattle.lab_records_copy_out.specs.Causes.{RefusesCopy};
ghost use Rattle.lab_records_copy_out.specs.Faults.{CopyFaultFits, OnTold};
ghost use Rattle.lab_records_copy_out.specs.Legible.{CanCopy, SendsSound};
ghost use Rattle.lab_records_copy_out.specs.Resting.{IsOnlyRead};
ghost use Rattle.lab_records_copy_out.specs.CopyTexts.{AreCountable, CanWalk, copy_text, desk_order, walked_to};
ghost use Rattle.lab_records_copy_out.specs.Private.CopyTexts.{text_under};

use crate::CopyOutFault;
use crate::givers::RecordGiver;
use crate::legible::order_is_legible;
use crate::progress::Progress;
use crate::reads::{first_line, head_of, last_kept};
use lab_copy_rows::{CopyLine, CopyOut};
use lab_records_keeper::Keeper;
use lab_records_kept::{LabCode, Moment, Ordinal};
use std::alloc::Global;
use std::io::Write;

/// Writes the inspection copy of a laboratory's records from a number to a number, at this moment
/// and without a person who asks (21 CFR 11.10(b)). The giver writes the rows of one record after
/// the other, and the progress is reported after each. A copy that was written whole is sound: the
/// checker finds no flaw in it.
///
/// # Errors
/// No laboratory has the code, the store failed, memory ran out, or a write failed or took no byte.
/// The beginning of the copy's text was written, and the rows of the keeper are as they were.
pub fn copy_out<S: Keeper, G: RecordGiver<S>, W: Write, P: Progress>(
    alloc: Global,
    keeper: &mut S,
    giver: &G,
    lab: &LabCode,
    from: Ordinal,
    to: Ordinal,
    moment: Moment,
    writer: &mut W,
    progress: &mut P,
) -> Result<(), CopyOutFault>
    // If the records of the laboratory can be walked:
    ensures text { CanWalk (S.world keeper.old) lab.now →
        Given (S.world keeper.old) (S.world keeper.new)
        (Sends (W.contents writer.old) (W.contents writer.new)
        (copy_text (desk_order from to moment) ((S.world keeper.old).meaning lab.now)) result) }

    // If the laboratory is within its limits, bound, under dual control and legible:
    ensures sound { CanCopy (S.world keeper.old) lab.now → from ≤ to →
        Given (S.world keeper.old) (S.world keeper.new)
        (OnOk result (MatchOption ((S.world keeper.old).meaning lab.now) ⊥
        (SendsSound (desk_order from to moment)
        (W.contents writer.old) (W.contents writer.new)))) }

    // In every case:
    ensures found { Given (S.world keeper.old) (S.world keeper.new)
        (OnOk result (IsSome ((S.world keeper.old).meaning lab.now))) }
    ensures fault { IfErr result (CopyFaultFits
        (Given (S.world keeper.old) (S.world keeper.new)
        ((S.world keeper.old).meaning lab.now ≡ None))
        (S.world keeper.old).may_refuse
        (Given (S.world keeper.old) (S.world keeper.new)
        (IsSome ((S.world keeper.old).meaning lab.now)))) }
    ensures cause { IfErr result (CopyFaultFits (Unit {0}) (RefusesCopy S.Keeper
        G.refuses_records keeper.old keeper.new lab.now from to) (Unit {0})) }
    ensures nothing { result ≡ Err CopyOutFault.NoSuchLab → writer.new ≡ writer.old }
    ensures lives { Given (S.world keeper.old) (S.world keeper.new)
        (OnTold result (Lives (S.world keeper.old) (S.world keeper.new))) }
    ensures read { IsOnlyRead S.world S.rests keeper.old keeper.new }
    ensures shuts { Given (S.world keeper.old) (S.world keeper.new)
        (Shuts (S.world keeper.old) (S.world keeper.new)) }
{
    order_is_legible(from, to, moment);
    match head_of(keeper, lab) {
        Ok(Some(slice)) => {
            let last = last_kept(&slice, to);
            let line = first_line(slice, from, to, moment);
            copy_under(alloc, keeper, giver, line, last, writer, progress)
        }
        Ok(None) => Err(CopyOutFault::NoSuchLab),
        Err(fault) => Err(CopyOutFault::from(fault)),
    }
}

// Writes a copy that begins with a line: its records up to a last one.
fn copy_under<S: Keeper, G: RecordGiver<S>, W: Write, P: Progress>(
    alloc: Global,
    keeper: &mut S,
    giver: &G,
    line: CopyLine,
    last: u32,
    writer: &mut W,
    progress: &mut P,
) -> Result<(), CopyOutFault>
    requires { last ≤ last_ordinal }
    ensures text { (S.world keeper.old).is_live →
        AreCountable line.lab
        (walked_to ((S.world keeper.old).meaning line.lab) line.from last) →
        Given (S.world keeper.old) (S.world keeper.new)
        (Sends (W.contents writer.old) (W.contents writer.new) (text_under line
        (walked_to ((S.world keeper.old).meaning line.lab) line.from last)) result) }
    ensures fault { IfErr result
        (CopyFaultFits ⊥ (S.world keeper.old).may_refuse (Unit {0})) }
    ensures cause { IfErr result (CopyFaultFits ⊥
        (G.refuses_records keeper.old keeper.new line.lab line.from last) (Unit {0})) }
    ensures lives { (S.world keeper.old).is_live →
        Given (S.world keeper.old) (S.world keeper.new)
        (OnOk result (S.world keeper.new).is_live) }
    ensures read { IsOnlyRead S.world S.rests keeper.old keeper.new }
    ensures shuts { Given (S.world keeper.old) (S.world keeper.new)
        (Shuts (S.world keeper.old) (S.world keeper.new)) }
{
    let mut out = CopyOut::start(alloc, writer, &line)?;
    giver.give_records(
        alloc, keeper, &line.lab, line.from, last, &mut out, writer, progress,
    )?;
    out.finish(alloc, writer)?;
    Ok(())
}
