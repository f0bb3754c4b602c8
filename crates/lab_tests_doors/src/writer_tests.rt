//! Writers that fail at each byte of what goes out.
use crate::made::{code, empty_desk, tick};
use crate::streams::{Dripping, Filling};
use crate::texts::{BODY, WAITING_CARD, WAITING_CARD_REPLY};
use lab_desk::{Desk, Lists, ServeFault, Tick};
use std::process::Abort;

fn desk_with_aqua<R: Abort + AllocGlobal>(rt: &R) -> Desk<Lists> {
    let mut desk = empty_desk(rt);
    let code = code(rt, "aqua");
    let found = desk.found(&code, &tick(rt, 50, 1), BODY);
    drop(code);
    assert_eq!(rt; found, Ok(()));
    desk
}

// How it ends where the writer has room for so many bytes, and which bytes of the request are left
// unread. The interim answer has 25 bytes.
fn end_at(room: usize) -> (Result<(), ServeFault>, &'static [u8]) {
    if room < 25 {
        return (Err(ServeFault::Interim { sent: room }), b"x");
    }
    if room < WAITING_CARD_REPLY.len() {
        let sent = room - 25;
        return (Err(ServeFault::Reply { sent }), b"");
    }
    (Ok(()), b"")
}

fn assert_bytes(rt: &impl Abort, bytes: &[u8], wanted: &[u8]) {
    assert_eq!(rt; bytes, wanted);
}

// A request ends as it should where the writer has room for so many bytes: the card is asked for by
// a waiting client, and what goes out is the front of the interim answer and the reply.
fn assert_end<R: Abort + AllocGlobal>(rt: &R, desk: &mut Desk<Lists>, tick: &Tick, room: usize) {
    let mut reader = Dripping {
        bytes: WAITING_CARD,
    };
    let mut writer = Filling {
        room,
        taken: Vec::new(rt.alloc()),
    };
    let served = desk.serve_one(&mut reader, &mut writer, tick);
    let (wanted, unread) = end_at(room);
    assert_eq!(rt; served, wanted);
    assert_bytes(rt, reader.bytes, unread);
    assert_bytes(
        rt,
        &writer.taken,
        &WAITING_CARD_REPLY[..room.min(WAITING_CARD_REPLY.len())],
    );
    drop(reader);
    drop(writer);
}

#[test]
fn a_writer_may_fail_at_each_byte(rt: HostRuntime) {
    let tick = tick(&rt, 100, 9);
    let mut desk = desk_with_aqua(&rt);
    for room in 0..WAITING_CARD_REPLY.len() + 1 {
        assert_end(&rt, &mut desk, &tick, room);
    }
    drop(desk);
}
