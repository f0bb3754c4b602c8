//! What foundings and requests get of a keeper that refuses, in a run and over connections.
use crate::made::{Told, event, tick};
use crate::moody::Moody;
use crate::refused_run_texts::{ANSWERS, CEDAR_CARD, NO_HEAD, SERVED};
use crate::texts::{BODY, CARD, OPEN};
use lab_desk::{Desk, Event, Lists, RunFault, ServeFault, Tick};
use std::process::Abort;

const EVENTS: [Told; 10] = [
    (Some("aqua"), BODY),
    (Some("brick"), BODY),
    (Some("aqua"), BODY),
    (Some("brick"), BODY),
    (Some("brick"), BODY),
    (None, OPEN),
    (None, CEDAR_CARD),
    (None, OPEN),
    (None, CARD),
    (None, CEDAR_CARD),
];

const TAKEN: [bool; 10] = [
    true, false, true, false, true, false, true, false, false, true,
];

fn events<R: Abort + AllocGlobal>(rt: &R) -> Vec<Event> {
    let mut events = Vec::new(rt.alloc());
    for told in EVENTS {
        events.push(event(rt, told, 1)).expect(rt, "the event");
    }
    events
}

// A desk with no laboratory, over a keeper that has had no call.
fn moody_desk<R: Abort + AllocGlobal>(rt: &R) -> Desk<Moody> {
    let moody = Moody {
        lists: Lists::new(rt.alloc()),
        calls: 0,
        is_moody: true,
    };
    Desk::new(rt.alloc(), moody).ok().expect(rt, "a desk")
}

// The run, without clauses, so that the proof of the test doesn't carry them.
fn run(
    desk: &mut Desk<Moody>,
    events: &[Event],
    written: &mut Vec<u8>,
) -> Result<Vec<bool>, RunFault> {
    desk.run(events, written)
}

#[test]
fn what_is_refused_is_told_so_and_changes_nothing(rt: HostRuntime) {
    let events = events(&rt);
    let mut desk = moody_desk(&rt);
    let mut written = Vec::new(rt.alloc());
    let ended = run(&mut desk, &events, &mut written);
    drop(desk);
    drop(events);
    let taken = ended.expect(&rt, "a run");
    assert!(rt; taken.as_slice() == TAKEN.as_slice());
    assert!(rt; written.as_slice() == ANSWERS);
}

// Five requests, each over a connection of its own.
const REQUESTS: [&[u8]; 5] = [CEDAR_CARD, CEDAR_CARD, NO_HEAD, CEDAR_CARD, CEDAR_CARD];

// One of them is served, without clauses, for the same reason.
fn serve(
    desk: &mut Desk<Moody>,
    request: &[u8],
    written: &mut Vec<u8>,
    tick: &Tick,
) -> Result<(), ServeFault> {
    let mut reader = request;
    desk.serve_one(&mut reader, written, tick)
}

#[test]
fn what_is_served_tells_memory_and_storage_by_turns(rt: HostRuntime) {
    let tick = tick(&rt, 100, 1);
    let mut desk = moody_desk(&rt);
    let mut written = Vec::new(rt.alloc());
    for request in REQUESTS {
        assert!(rt; serve(&mut desk, request, &mut written, &tick) == Ok(()));
    }
    drop(desk);
    assert!(rt; written.as_slice() == SERVED);
}
