//! The writing of the rows of records from the store, for an inspection copy.

use crate::store::Store;
use lab_copy_rows::CopyOut;
use lab_forms_texts::{LabCode, Ordinal};
use lab_records_copy_out::{CopyOutFault, Progress, RecordGiver};
use sqlite::Alter;
use std::alloc::Global;
use std::io::Write;

/// Writes a record from a store one version at a time: the entries and signatures of that version
/// are read, their rows are written, and only its digest is kept for the next version. The
/// laboratory's row is read once, and a form unless it is the form of the record before.
#[derive(Clone, Copy, Debug, PartialEq, Eq)]
pub struct OneVersionAtATime;

impl<S: Alter> RecordGiver<Store<S>> for OneVersionAtATime {
    ghost use Rattle.lab_store.specs.Causes.{RefusesRange};

    ghost refuses_records = { RefusesRange S.Store };

    fn give_records<W: Write, P: Progress>(
        &self,
        alloc: Global,
        keeper: &mut Store<S>,
        lab: &LabCode,
        from: Ordinal,
        last: u32,
        out: &mut CopyOut,
        writer: &mut W,
        progress: &mut P,
    ) -> Result<(), CopyOutFault> {
        keeper.give_records(alloc, lab, from, last, out, writer, progress)
    }
}
