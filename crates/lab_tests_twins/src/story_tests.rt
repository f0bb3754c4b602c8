//! Stories in which a result is entered, signed, reviewed and amended, at their moments, over two
//! databases of two laboratories. In one the ids are numbers of the rows. In the other one brick's
//! rows stand in front, and each id is seven times that number, and three; or a crowd of brick's is
//! there, too. Both desks give the reply that the model gives, and after each request both stores
//! give equal slices.
use crate::needs::needs_of_story;
use crate::slices::push_slice;
use lab_desk::{Desk, Twins};
use lab_records_kept::Need;
use lab_store::Store;
use lab_tests_rows::{
    A_RECORD_IS_OPENED_BESIDE_A_CROWD, A_SECOND_VALUE_WANTS_A_REASON_AND_BOTH_STAY,
    A_SESSION_RESTS_FOR_NINE_HUNDRED_SECONDS, AN_AUTHOR_WHO_IS_A_REVIEWER_TOO_DOES_NOT_REVIEW,
    AND_NOT_FOR_A_SECOND_MORE, Exchange, ONE_FORM_AND_SAMPLE_MAKE_ONE_RECORD, PLAIN, SPREAD,
    THE_FIRST_SIGNING_TAKES_THE_CODE_AND_A_SECOND_PERSON_RELEASES,
    WHAT_IS_RELEASED_IS_AMENDED_AND_NOTHING_OVERWRITTEN, WHO_ENTERED_A_ROW_SIGNS_AS_AUTHOR_ALONE,
    WORKED_AQUA_ROWS, WORKED_BRICK_ROWS, add_crowd, ask_both, database, database_of, desk, part,
    store,
};
use sqlite::{Connection, MemStore};
use std::process::Abort;

type Tables = Connection<MemStore>;

type Kept = Desk<Store<MemStore>>;

// The databases of two desks.
struct Pair {
    one: Tables,
    other: Tables,
}

fn beginning<R: Abort + AllocGlobal>(rt: &R) -> Pair {
    let rows = [WORKED_BRICK_ROWS, WORKED_AQUA_ROWS];
    let plain = [WORKED_AQUA_ROWS, WORKED_BRICK_ROWS];
    Pair {
        one: database(rt.alloc(), &plain, PLAIN).expect(rt, "a database"),
        other: database(rt.alloc(), &rows, SPREAD).expect(rt, "a database"),
    }
}

fn assert_bytes(rt: &impl Abort, bytes: &[u8], wanted: &[u8]) {
    assert_eq!(rt; bytes, wanted);
}

fn desk_over<R: Abort + AllocGlobal>(rt: &R, conn: Tables) -> Kept {
    desk(rt.alloc(), conn).expect(rt, "a desk")
}

// Both desks take the request, and give its reply.
fn answered<R: Abort + AllocGlobal>(rt: &R, pair: Pair, exchange: &Exchange) -> Pair {
    let Pair { one, other } = pair;
    let mut one = desk_over(rt, one);
    let mut other = desk_over(rt, other);
    let twins = ask_both(&mut one, &mut other, exchange).expect(rt, "a moment");
    let taken = Twins {
        one: true,
        other: true,
    };
    assert_eq!(rt; twins, taken);
    assert_bytes(rt, one.reply(), exchange.reply);
    assert_bytes(rt, other.reply(), exchange.reply);
    Pair {
        one: database_of(one),
        other: database_of(other),
    }
}

// What is needed, as a text for each need.
fn slice_texts<R: Abort + AllocGlobal>(
    rt: &R,
    conn: Tables,
    needs: &[Need; 3],
) -> (Tables, Vec<u8>) {
    let mut kept = store(rt.alloc(), conn).ok().expect(rt, "a store");
    let mut text = Vec::new(rt.alloc());
    for need in needs {
        let slice = part(rt.alloc(), &mut kept, "aqua", need).expect(rt, "a laboratory");
        push_slice(&mut text, &slice).expect(rt, "memory");
        drop(slice);
    }
    (kept.into_connection(), text)
}

// Where the same is needed of both, both give equal slices.
fn compared<R: Abort + AllocGlobal>(rt: &R, pair: Pair, needs: &[Need; 3]) -> Pair {
    let Pair { one, other } = pair;
    let (one, first) = slice_texts(rt, one, needs);
    let (other, second) = slice_texts(rt, other, needs);
    assert_bytes(rt, &second, &first);
    drop(first);
    drop(second);
    Pair { one, other }
}

// The same where brick has a crowd in the second database.
fn crowded<R: Abort + AllocGlobal>(rt: &R) -> Pair {
    let mut pair = beginning(rt);
    add_crowd(rt.alloc(), &mut pair.other).expect(rt, "a crowd");
    pair
}

fn play<R: Abort + AllocGlobal>(rt: &R, beginning: Pair, story: &[Exchange]) {
    let needs = needs_of_story(rt);
    let mut pair = compared(rt, beginning, &needs);
    for exchange in story {
        pair = answered(rt, pair, exchange);
        pair = compared(rt, pair, &needs);
    }
    let Pair { one, other } = pair;
    drop(one);
    drop(other);
    drop(needs);
}

#[test]
fn a_second_value_wants_a_reason_and_both_stay(rt: HostRuntime) {
    play(
        &rt,
        beginning(&rt),
        &A_SECOND_VALUE_WANTS_A_REASON_AND_BOTH_STAY,
    );
}

#[test]
fn the_first_signing_takes_the_code_and_a_second_person_releases(rt: HostRuntime) {
    play(
        &rt,
        beginning(&rt),
        &THE_FIRST_SIGNING_TAKES_THE_CODE_AND_A_SECOND_PERSON_RELEASES,
    );
}

#[test]
fn a_session_rests_for_nine_hundred_seconds(rt: HostRuntime) {
    play(
        &rt,
        beginning(&rt),
        &A_SESSION_RESTS_FOR_NINE_HUNDRED_SECONDS,
    );
}

#[test]
fn and_not_for_a_second_more(rt: HostRuntime) {
    play(&rt, beginning(&rt), &AND_NOT_FOR_A_SECOND_MORE);
}

#[test]
fn who_entered_a_row_signs_as_author_alone(rt: HostRuntime) {
    play(
        &rt,
        beginning(&rt),
        &WHO_ENTERED_A_ROW_SIGNS_AS_AUTHOR_ALONE,
    );
}

#[test]
fn an_author_who_is_a_reviewer_too_does_not_review(rt: HostRuntime) {
    play(
        &rt,
        beginning(&rt),
        &AN_AUTHOR_WHO_IS_A_REVIEWER_TOO_DOES_NOT_REVIEW,
    );
}

#[test]
fn what_is_released_is_amended_and_nothing_overwritten(rt: HostRuntime) {
    play(
        &rt,
        beginning(&rt),
        &WHAT_IS_RELEASED_IS_AMENDED_AND_NOTHING_OVERWRITTEN,
    );
}

#[test]
fn one_form_and_sample_make_one_record(rt: HostRuntime) {
    play(&rt, beginning(&rt), &ONE_FORM_AND_SAMPLE_MAKE_ONE_RECORD);
}

#[test]
fn a_record_is_opened_beside_a_crowd(rt: HostRuntime) {
    play(&rt, crowded(&rt), &A_RECORD_IS_OPENED_BESIDE_A_CROWD);
}

#[test]
fn a_second_value_wants_a_reason_and_both_stay_beside_a_crowd(rt: HostRuntime) {
    play(
        &rt,
        crowded(&rt),
        &A_SECOND_VALUE_WANTS_A_REASON_AND_BOTH_STAY,
    );
}

#[test]
fn the_first_signing_takes_the_code_and_a_second_person_releases_beside_a_crowd(rt: HostRuntime) {
    play(
        &rt,
        crowded(&rt),
        &THE_FIRST_SIGNING_TAKES_THE_CODE_AND_A_SECOND_PERSON_RELEASES,
    );
}

#[test]
fn what_is_released_is_amended_and_nothing_overwritten_beside_a_crowd(rt: HostRuntime) {
    play(
        &rt,
        crowded(&rt),
        &WHAT_IS_RELEASED_IS_AMENDED_AND_NOTHING_OVERWRITTEN,
    );
}

#[test]
fn one_form_and_sample_make_one_record_beside_a_crowd(rt: HostRuntime) {
    play(&rt, crowded(&rt), &ONE_FORM_AND_SAMPLE_MAKE_ONE_RECORD);
}
