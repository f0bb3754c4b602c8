//! The rows of a range of records, all in memory at once.

ghost use Rattle.std.specs.Prelude.{◌≡◌, IfOk, IfErr, OnOk, option_map};
ghost use Rattle.lab_records_keeper.specs.Worlds.{Given, KeeperFaultFits, Lives, Shuts};
ghost use Rattle.lab_records_copy_out.specs.Ranges.{body_of, range_need};
ghost use Rattle.lab_records_copy_out.specs.Private.Ranges.{rows_in};
ghost use Rattle.lab_records_copy_out.specs.Resting.{IsOnlyRead};

use lab_copy_rows::{CopyRow, OutOfMemory};
use lab_records_copies::body_rows;
use lab_records_keeper::{Keeper, KeeperFault};
use lab_records_kept::{LabCode, ListWanted, Need, Ordinal, Slice};
use std::alloc::Global;

/// Returns the rows of a laboratory's records from a number to a number, as an inspection copy has
/// them between its first row and its last; or `None` if no laboratory has the code. A copy of many
/// records takes less memory by `copy_out`.
///
/// # Errors
/// The store failed, or memory ran out. The rows of the keeper are as they were.
#[tactic(auto, using(crate::proofs::RangeLemmas::body_is))]
pub fn copy_rows<S: Keeper>(
    alloc: Global,
    keeper: &mut S,
    lab: &LabCode,
    from: Ordinal,
    to: Ordinal,
) -> Result<Option<Vec<CopyRow>>, KeeperFault>
    ensures rows { Given (S.world keeper.old) (S.world keeper.new) (IfOk result (λ found.
        option_map (λ rows. rows.items) found
        ≡ option_map (body_of from to) ((S.world keeper.old).meaning lab.now))) }
    ensures lives { Given (S.world keeper.old) (S.world keeper.new)
        (OnOk result (Lives (S.world keeper.old) (S.world keeper.new))) }
    ensures fault { IfErr result (KeeperFaultFits (S.world keeper.old).may_refuse) }
    ensures cause { IfErr result (KeeperFaultFits
        (S.refuses_load keeper.old keeper.new lab.now (range_need from to))) }
    ensures read { IsOnlyRead S.world S.rests keeper.old keeper.new }
    ensures shuts { Given (S.world keeper.old) (S.world keeper.new)
        (Shuts (S.world keeper.old) (S.world keeper.new)) }
{
    let need = range_need(from, to);
    let loaded = keeper.load(lab, &need);
    drop(need);
    match loaded {
        Ok(slice) => Ok(rows_in(alloc, slice)?),
        Err(fault) => Err(fault),
    }
}

// The need of the records from a number to a number, and of nothing else.
fn range_need(from: Ordinal, to: Ordinal) -> Need
    ensures { result ≡ range_need from to }
{
    Need {
        token: None,
        person: None,
        form: None,
        filed: None,
        list: Some(ListWanted::Records { from, to }),
    }
}

// The rows of the records in a part, if there is one.
fn rows_in(alloc: Global, slice: Option<Slice>) -> Result<Option<Vec<CopyRow>>, OutOfMemory>
    ensures { IfOk result (λ found.
        option_map (λ rows. rows.items) found ≡ option_map rows_in slice) }
{
    match slice {
        Some(slice) => {
            let rows = body_rows(alloc, &slice.code, slice.records.as_slice())?;
            Ok(Some(rows))
        }
        None => Ok(None),
    }
}
