//! The same request, of a desk that holds one laboratory and of a desk that holds another too.
use crate::texts::{BODY, NO_SUCH_LAB_REPLY, OPEN, OPEN_REPLY, ZINC_CARD, ZINC_CARD_REPLY};
use lab_desk::{Desk, Twins, twin};
use lab_forms_texts::{LabCode, Moment, Tick};
use lab_records_memory::Lists;
use std::process::Abort;

fn tick(rt: &impl Abort, seconds: i64) -> Tick {
    Tick {
        moment: Moment::from_seconds(seconds).expect(rt, "a moment"),
        words: [9, 2, 3, 4, 5, 6, 7, 8],
    }
}

// A desk with no laboratory.
fn empty_desk<R: Abort + AllocGlobal>(rt: &R) -> Desk<Lists> {
    Desk::new(rt.alloc(), Lists::new(rt.alloc()))
        .ok()
        .expect(rt, "a desk")
}

// Founds a laboratory of this code.
fn found<R: Abort + AllocGlobal>(rt: &R, desk: &mut Desk<Lists>, code: &str) {
    let code = LabCode::parse(rt.alloc(), code).expect(rt, "a code");
    let found = desk.found(&code, &tick(rt, 50), BODY);
    drop(code);
    assert_eq!(rt; found, Ok(()));
}

fn assert_bytes(rt: &impl Abort, bytes: &[u8], wanted: &[u8]) {
    assert_eq!(rt; bytes, wanted);
}

// Both desks take a request in the hundredth second, and give these replies.
fn assert_answered(
    rt: &impl Abort,
    (desk, other): (&mut Desk<Lists>, &mut Desk<Lists>),
    request: &[u8],
    (reply, other_reply): (&[u8], &[u8]),
) {
    let twins = twin(desk, other, &tick(rt, 100), request);
    let taken = Twins {
        one: true,
        other: true,
    };
    assert_eq!(rt; twins, taken);
    assert_bytes(rt, desk.reply(), reply);
    assert_bytes(rt, other.reply(), other_reply);
}

#[test]
fn desks_that_agree_on_one_laboratory_alone_answer_alike_of_it_alone(rt: HostRuntime) {
    let mut lone = empty_desk(&rt);
    let mut full = empty_desk(&rt);
    found(&rt, &mut lone, "aqua");
    found(&rt, &mut full, "zinc");
    found(&rt, &mut full, "aqua");
    let replies = (OPEN_REPLY, OPEN_REPLY);
    assert_answered(&rt, (&mut lone, &mut full), OPEN, replies);
    let replies = (NO_SUCH_LAB_REPLY, ZINC_CARD_REPLY);
    assert_answered(&rt, (&mut lone, &mut full), ZINC_CARD, replies);
    drop(lone);
    drop(full);
}
