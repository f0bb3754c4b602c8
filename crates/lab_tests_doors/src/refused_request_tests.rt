//! What requests get of a keeper that refuses, and what they leave.
use crate::made::{code, tick};
use crate::moody::Moody;
use crate::refused_request_texts::{MEMORY_REPLY, OPEN_REPLY, STORAGE_REPLY};
use crate::texts::{BODY, OPEN};
use lab_desk::{Desk, Lists};
use std::process::Abort;

// A desk with a laboratory, over a keeper that has had so many calls before the founding.
fn desk_with<R: Abort + AllocGlobal>(rt: &R, calls: u64) -> Desk<Moody> {
    let lists = Lists::new(rt.alloc());
    let moody = Moody {
        lists,
        calls,
        is_moody: true,
    };
    let mut desk = Desk::new(rt.alloc(), moody).ok().expect(rt, "a desk");
    let code = code(rt, "aqua");
    let found = desk.found(&code, &tick(rt, 50, 9), BODY);
    drop(code);
    assert_eq!(rt; found, Ok(()));
    desk
}

// The same desk over the same keeper, which refuses nothing any more.
fn calmed<R: Abort + AllocGlobal>(rt: &R, desk: Desk<Moody>) -> Desk<Moody> {
    let mut moody = desk.into_keeper();
    moody.is_moody = false;
    Desk::new(rt.alloc(), moody).ok().expect(rt, "a desk")
}

// An opening in the hundredth second is taken or not, and gets this reply.
fn assert_opened(rt: &impl Abort, desk: &mut Desk<Moody>, wanted: (bool, &[u8])) {
    let is_taken = desk.handle(&tick(rt, 100, 9), OPEN);
    assert_eq!(rt; (is_taken, desk.reply()), wanted);
}

// Two openings get these refusals, of a keeper that has had so many calls before the founding; a
// third, once it refuses nothing, gets the reply of the first that there ever was.
fn assert_refused<R: Abort + AllocGlobal>(rt: &R, calls: u64, [first, second]: [&[u8]; 2]) {
    let mut desk = desk_with(rt, calls);
    assert_opened(rt, &mut desk, (false, first));
    assert_opened(rt, &mut desk, (false, second));
    let mut desk = calmed(rt, desk);
    assert_opened(rt, &mut desk, (true, OPEN_REPLY));
    drop(desk);
}

// The load of the first is refused, and the change of the second.
#[test]
fn requests_that_are_refused_change_nothing(rt: HostRuntime) {
    assert_refused(&rt, 0, [MEMORY_REPLY, STORAGE_REPLY]);
    assert_refused(&rt, 2, [STORAGE_REPLY, MEMORY_REPLY]);
}
