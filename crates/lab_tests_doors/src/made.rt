//! Moments, codes, events and desks that the tests are made of.
use lab_desk::{Desk, Event, LabCode, Lists, Moment, Series, Tick};
use std::process::Abort;

/// What an event is made of: the code and the body of a founding, or the bytes of a call, which has
/// no code.
pub(crate) type Told = (Option<&'static str>, &'static [u8]);

/// The moment of this number of seconds, and random words of which the first is this one.
pub(crate) fn tick(rt: &impl Abort, seconds: i64, first: u64) -> Tick {
    Tick {
        moment: Moment::from_seconds(seconds).expect(rt, "a moment"),
        words: [first, 2, 3, 4, 5, 6, 7, 8],
    }
}

pub(crate) fn code<R: Abort + AllocGlobal>(rt: &R, code: &str) -> LabCode {
    LabCode::parse(rt.alloc(), code).expect(rt, "a code")
}

/// The event with this first word: a founding in the fiftieth second, or a call in the hundredth.
pub(crate) fn event<R: Abort + AllocGlobal>(rt: &R, (lab, bytes): Told, first: u64) -> Event {
    let bytes = Series::from_vec(bytes.to_vec(rt.alloc()).expect(rt, "the bytes"));
    match lab {
        Some(lab) => Event::Found {
            lab: code(rt, lab),
            tick: tick(rt, 50, first),
            body: bytes,
        },
        None => Event::Call {
            tick: tick(rt, 100, first),
            bytes,
        },
    }
}

/// A desk with no laboratory.
pub(crate) fn empty_desk<R: Abort + AllocGlobal>(rt: &R) -> Desk<Lists> {
    Desk::new(rt.alloc(), Lists::new(rt.alloc()))
        .ok()
        .expect(rt, "a desk")
}
