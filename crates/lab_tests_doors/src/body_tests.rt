//! What the body of a founding says, and the rows of the records of no laboratory.
use crate::made::code;
use crate::texts::{BODY, SHORT, TWICE};
use lab_desk::{FoundFault, Founding, Lists, founding_of};
use lab_store::{CopyRow, Ordinal, StoreFault, copy_rows};
use std::process::Abort;

fn read<R: Abort + AllocGlobal>(rt: &R, body: &[u8]) -> Result<Founding, FoundFault> {
    founding_of(rt.alloc(), body)
}

// The number and the word by which a body is refused.
fn refusal<R: Abort + AllocGlobal>(rt: &R, body: &[u8]) -> (Option<u32>, &'static str) {
    let fault = read(rt, body).err().expect(rt, "a fault");
    (fault.number(), fault.word())
}

// A code that two founders share comes before a password that is too short.
#[test]
fn a_body_is_refused_by_its_founders(rt: HostRuntime) {
    assert_eq!(rt; refusal(&rt, b""), (Some(88), "bad_body"));
    assert_eq!(rt; refusal(&rt, TWICE), (Some(27), "code_taken"));
    assert_eq!(rt; refusal(&rt, SHORT), (Some(25), "bad_password"));
    let founding = read(&rt, BODY).expect(&rt, "a founding");
    assert_eq!(rt; founding.name.as_str(), "Aqua Lab");
    drop(founding);
}

// The rows of the first record, without clauses, so that the proof of the test doesn't carry them.
fn rows<R: Abort + AllocGlobal>(
    rt: &R,
    lists: &mut Lists,
    lab: &str,
) -> Result<Option<Vec<CopyRow>>, StoreFault> {
    let code = code(rt, lab);
    copy_rows(rt.alloc(), lists, &code, Ordinal::FIRST, Ordinal::FIRST)
}

#[test]
fn no_laboratory_has_no_rows(rt: HostRuntime) {
    let mut lists = Lists::new(rt.alloc());
    let found = rows(&rt, &mut lists, "aqua").expect(&rt, "an answer");
    assert!(rt; found.is_none());
    drop(found);
    drop(lists);
}
