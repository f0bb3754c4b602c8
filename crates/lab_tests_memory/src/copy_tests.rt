//! A copy that goes out of a list.
use crate::copies::COPY;
use crate::kept::lists;
use crate::made::{moment, text};
use lab_records_copy_out::{Unheard, WholeRecords, copy_out};
use lab_records_kept::{LabCode, Ordinal};
use std::process::Abort;

// The copy of records 1 and 2 at second 6000 goes out, and is this text.
fn assert_copied<R: Abort + AllocGlobal>(rt: &R, code: &LabCode, wanted: &str) {
    let to = Ordinal::new(2).expect(rt, "an ordinal");
    let moment = moment(rt, 6000);
    let mut lists = lists(rt, code);
    let mut out = Vec::new(rt.alloc());
    let done = copy_out(
        rt.alloc(),
        &mut lists,
        &WholeRecords,
        code,
        Ordinal::FIRST,
        to,
        moment,
        &mut out,
        &mut Unheard,
    );
    drop(lists);
    assert_eq!(rt; done, Ok(()));
    assert_eq!(rt; out.as_slice(), wanted.as_bytes());
    drop(out);
}

#[test]
fn all_records_go_out(rt: HostRuntime) {
    let code = text(&rt, "aqua");
    assert_copied(&rt, &code, COPY);
    drop(code);
}
