//! Texts, moments, numbers and series.
use lab_forms_texts::{
    Keys, LabCodes, Moment, MomentFault, Names, Note, Notes, Ordinal, PersonCodes, Series,
    TextRule, Units,
};
use std::process::Abort;

// Texts, and whether they are a laboratory's code, a person's code, a key, a name, a note, a unit:
// by docs/NAMES.md, as Python's `re` tells.
static TEXTS: [(&[&str], [bool; 6]); 11] = [
    (
        &["aqua", "abcdefghijkl", "jo"],
        [true, true, true, true, true, true],
    ),
    (
        &["lab-7", "z9-", "lead-2"],
        [true, true, false, true, true, true],
    ),
    (&["a", "k"], [true, false, true, true, true, true]),
    (
        &["abcdefghijklm", "abcdefghijklmnop"],
        [false, true, true, true, true, true],
    ),
    (
        &["la_b", "jo_2", "abcdefghijklmnopq", "abcdefghijklmnopqrst"],
        [false, false, true, true, true, true],
    ),
    (
        &["abcdefghijklmnopqrstu", "abcdefghijklmnopqrstuvwx"],
        [false, false, true, true, true, false],
    ),
    (
        &[
            "7lab", "-lab", "Aqua", "la b", "läb", "A", "水", "a\u{80}b", "🜄", "2jo", "_lead",
            "µg/L", "°C",
        ],
        [false, false, false, true, true, true],
    ),
    (
        &["abcdefghijklmnopqrstuvwxy", "abcdefghijklmnopqrsµ"],
        [false, false, false, true, true, false],
    ),
    (
        &[
            " ",
            " Aqua",
            "Aqua ",
            "Aqua\nNorth",
            "lead\n",
            "two\nlines\n",
        ],
        [false, false, false, false, true, false],
    ),
    (&[""], [false, false, false, false, false, true]),
    (
        &["Aqua\tNorth", "\u{7f}", "a\0b", "a\r\nb", "\u{1f}"],
        [false, false, false, false, false, false],
    ),
];

fn admitting(text: &str) -> [bool; 6] {
    [
        LabCodes::admits(text),
        PersonCodes::admits(text),
        Keys::admits(text),
        Names::admits(text),
        Notes::admits(text),
        Units::admits(text),
    ]
}

// The rules that admit each of the texts are these.
fn assert_admitted(rt: &impl Abort, texts: &[&str], wanted: [bool; 6]) {
    for text in texts {
        assert_eq!(rt; admitting(text), wanted, "of {text:?}");
    }
}

#[test]
fn each_rule_admits_its_texts_alone(rt: HostRuntime) {
    for &(texts, wanted) in &TEXTS {
        assert_admitted(&rt, texts, wanted);
    }
}

// The longest names and notes, of characters of 1 to 4 bytes: the character, how often it stands
// behind the rest, and whether that is a name, and with one byte more a name and a note.
static LONGEST: [(&str, usize, &str, [bool; 3]); 8] = [
    ("a", 120, "", [true, false, true]),
    ("é", 60, "", [true, false, true]),
    ("水", 40, "", [true, false, true]),
    ("🜄", 30, "", [true, false, true]),
    ("a", 1000, "", [false, false, false]),
    ("é", 500, "", [false, false, false]),
    ("水", 333, "b", [false, false, false]),
    ("🜄", 250, "", [false, false, false]),
];

fn repeated(rt: &(impl Abort + AllocGlobal), character: &str, count: usize, rest: &str) -> String {
    let mut text = String::from_str(rt.alloc(), rest).expect(rt, "memory");
    for _ in 0..count {
        text.push_str(character).expect(rt, "memory");
    }
    text
}

// A note is shown as it was written, and so is a copy of it.
fn assert_shown(rt: &(impl Abort + AllocGlobal), text: &str) {
    let note = Note::parse(rt.alloc(), text).expect(rt, "a note");
    let copy = note.copy().expect(rt, "memory");
    assert_eq!(rt; note.as_str(), text);
    assert_eq!(rt; copy, note);
    drop(copy);
    drop(note);
}

#[test]
fn names_have_120_bytes_at_most_and_notes_1000(rt: HostRuntime) {
    for &(character, count, rest, wanted) in &LONGEST {
        let mut text = repeated(&rt, character, count, rest);
        let is_name = Names::admits(text.as_str());
        assert_shown(&rt, text.as_str());
        text.push('b').expect(&rt, "memory");
        let are_longer = (Names::admits(text.as_str()), Notes::admits(text.as_str()));
        drop(text);
        assert_eq!(rt;
            [is_name, are_longer.0, are_longer.1],
            wanted,
            "{count} times {character}"
        );
    }
}

// Seconds, with the texts and the days that Python's `datetime` gives; other seconds are none.
static MOMENTS: [(i64, Result<([u8; 20], u64), MomentFault>); 11] = [
    (0, Ok((*b"1970-01-01T00:00:00Z", 0))),
    (784_111_777, Ok((*b"1994-11-06T08:49:37Z", 9_075))),
    (951_782_400, Ok((*b"2000-02-29T00:00:00Z", 11_016))),
    (1_078_012_799, Ok((*b"2004-02-28T23:59:59Z", 12_476))),
    (4_102_444_799, Ok((*b"2099-12-31T23:59:59Z", 47_481))),
    (4_102_444_800, Ok((*b"2100-01-01T00:00:00Z", 47_482))),
    (253_402_300_799, Ok((*b"9999-12-31T23:59:59Z", 2_932_896))),
    (i64::MIN, Err(MomentFault::BadMoment)),
    (-1, Err(MomentFault::BadMoment)),
    (253_402_300_800, Err(MomentFault::BadMoment)),
    (i64::MAX, Err(MomentFault::BadMoment)),
];

fn printed(seconds: i64) -> Result<([u8; 20], u64), MomentFault> {
    let moment = Moment::from_seconds(seconds)?;
    let mut text = [0; 20];
    moment.print(&mut text);
    Ok((text, moment.day()))
}

// That the text is read as the second again is a clause of `Moment::parse`.
#[test]
fn moments_are_printed(rt: HostRuntime) {
    for &(seconds, wanted) in &MOMENTS {
        assert_eq!(rt; printed(seconds), wanted, "at {seconds}");
    }
}

static NO_MOMENTS: [&str; 20] = [
    "",
    "1600-02-29T00:00:00Z",
    "1969-12-31T23:59:59Z",
    "1900-02-29T00:00:00Z",
    "2100-02-29T00:00:00Z",
    "2001-00-01T00:00:00Z",
    "2001-13-01T00:00:00Z",
    "2001-04-31T00:00:00Z",
    "2001-04-00T00:00:00Z",
    "2001-04-01T24:00:00Z",
    "2001-04-01T00:60:00Z",
    "2001-04-01T23:59:60Z",
    "2001-04-01 00:00:00Z",
    "2001-04-01t00:00:00z",
    "2001-04-01T00:00:00",
    "2001-04-01T00:00:00ZZ",
    "2001-04-01T00:00:00+0",
    "2001-4-01T000:00:00Z",
    " 001-04-01T00:00:00Z",
    "10000-01-01T00:00:0Z",
];

#[test]
fn no_other_text_is_a_moment(rt: HostRuntime) {
    for text in &NO_MOMENTS {
        assert_eq!(rt;
            Moment::parse(text),
            Err(MomentFault::BadMoment),
            "of {text:?}"
        );
    }
}

static NUMBERS: [(u32, Option<u32>); 7] = [
    (0, None),
    (1, Some(1)),
    (2, Some(2)),
    (999_999_999, Some(999_999_999)),
    (1_000_000_000, Some(1_000_000_000)),
    (1_000_000_001, None),
    (u32::MAX, None),
];

#[test]
fn ordinals_are_1_to_1000000000(rt: HostRuntime) {
    for &(number, ordinal) in &NUMBERS {
        assert_eq!(rt;
            Ordinal::new(number).map(Ordinal::get),
            ordinal,
            "at {number}"
        );
    }
}

#[test]
fn a_series_and_its_copy_have_their_values_in_order(rt: HostRuntime) {
    let mut series = Series::new(rt.alloc());
    for value in [3, 1, 2] {
        series.push(value).expect(&rt, "memory");
    }
    let copy = series.clone().expect(&rt, "memory");
    assert_eq!(rt; copy.as_slice(), [3, 1, 2].as_slice());
    drop(copy);
    drop(series);
}
