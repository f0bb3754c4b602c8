//! A run of foundings and a request.
use crate::made::{Told, empty_desk, event};
use crate::run_texts::ANSWERS;
use crate::texts::{BODY, CARD};
use lab_desk::{Desk, Event, Lists, RunFault};
use std::process::Abort;

const EVENTS: [Told; 3] = [(Some("aqua"), BODY), (Some("aqua"), BODY), (None, CARD)];

fn copied<R: Abort + AllocGlobal>(rt: &R, event: Event) -> Event {
    let copy = event.copy();
    drop(event);
    copy.expect(rt, "a copy")
}

// A copy of each event is answered like the event.
fn events<R: Abort + AllocGlobal>(rt: &R) -> Vec<Event> {
    let mut events = Vec::new(rt.alloc());
    for told in EVENTS {
        events
            .push(copied(rt, event(rt, told, 9)))
            .expect(rt, "the event");
    }
    events
}

// The run, without clauses, so that the proof of the test doesn't carry them.
fn run(
    desk: &mut Desk<Lists>,
    events: &[Event],
    written: &mut Vec<u8>,
) -> Result<Vec<bool>, RunFault> {
    desk.run(events, written)
}

// The run took each event, and wrote their answers.
fn assert_told(rt: &impl Abort, taken: &[bool], written: &[u8]) {
    assert_eq!(rt; taken, [true; 3].as_slice());
    assert_eq!(rt; written, ANSWERS);
}

#[test]
fn a_run_answers_in_order_and_tells_what_was_taken(rt: HostRuntime) {
    let events = events(&rt);
    let mut desk = empty_desk(&rt);
    let mut written = Vec::new(rt.alloc());
    let ended = run(&mut desk, &events, &mut written);
    drop(desk);
    drop(events);
    let taken = ended.expect(&rt, "a run");
    assert_told(&rt, &taken, &written);
}
