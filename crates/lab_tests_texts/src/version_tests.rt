//! The texts of versions, which `lab_seal_versions` writes and `lab_seal` reads.
use lab_forms_texts::{Text, TextRule};
use lab_seal::{BadText, TextFault, one_spelling, read_version};
use lab_seal_versions::{
    Amendment, EntryRow, EntryRows, Format, Moment, Note, Ordinal, Origin, VersionParts, digest,
    write_version,
};
use std::process::Abort;

// The bytes of a version with one row in format 1, 142 of them.
const FIRST_VERSION: &[u8] =
    b"11:labrecord 1\n4:aqua\n1:1\n1:1\n5:water\n1:1\n2:S1\n1:-\n0:\n3:dan\n\
    20:1970-01-01T00:16:40Z\n1:1\n4:lead\n4:7.50\n4:mg/L\n3:dan\n20:1970-01-01T00:18:20Z\n0:\n";

// The same of the last record that there may be.
const LAST_RECORD: &[u8] =
    b"11:labrecord 1\n4:aqua\n10:1000000000\n1:1\n5:water\n1:1\n2:S1\n1:-\n0:\n3:dan\n\
    20:1970-01-01T00:16:40Z\n1:1\n4:lead\n4:7.50\n4:mg/L\n3:dan\n20:1970-01-01T00:18:20Z\n0:\n";

// The first in format 2, without an approval (147 bytes) and with one (148).
const NEWER_VERSION: &[u8] =
    b"11:labrecord 2\n4:aqua\n1:1\n1:1\n5:water\n1:1\n2:no\n2:S1\n1:-\n0:\n3:dan\n\
    20:1970-01-01T00:16:40Z\n1:1\n4:lead\n4:7.50\n4:mg/L\n3:dan\n20:1970-01-01T00:18:20Z\n0:\n";

const APPROVED_VERSION: &[u8] =
    b"11:labrecord 2\n4:aqua\n1:1\n1:1\n5:water\n1:1\n3:yes\n2:S1\n1:-\n0:\n3:dan\n\
    20:1970-01-01T00:16:40Z\n1:1\n4:lead\n4:7.50\n4:mg/L\n3:dan\n20:1970-01-01T00:18:20Z\n0:\n";

// The bytes of a later version with one row, which has a reason, in format 1 (254 of them) and
// format 2 (260), as Python wrote them by the rule of docs/VERSIONS.md.
const LATER_VERSION: &[u8] = b"11:labrecord 1\n4:aqua\n1:1\n1:2\n5:water\n1:1\n2:S1\n\
    64:ba7816bf8f01cfea414140de5dae2223b00361a396177a9cb410ff61f20015ad\n3:why\n3:dan\n\
    20:1970-01-01T00:16:40Z\n1:1\n2:ph\n25:7,5 \xc2\xb5S\nafter calibration\n6:\xc2\xb5S/cm\n\
    5:eve-2\n20:2024-02-29T23:59:59Z\n20:misread: 7.5\nnot 5.7\n";

const LATER_NEWER_VERSION: &[u8] = b"11:labrecord 2\n4:aqua\n1:1\n1:2\n5:water\n1:1\n3:yes\n2:S1\n\
    64:ba7816bf8f01cfea414140de5dae2223b00361a396177a9cb410ff61f20015ad\n3:why\n3:dan\n\
    20:1970-01-01T00:16:40Z\n1:1\n2:ph\n25:7,5 \xc2\xb5S\nafter calibration\n6:\xc2\xb5S/cm\n\
    5:eve-2\n20:2024-02-29T23:59:59Z\n20:misread: 7.5\nnot 5.7\n";

static VERSIONS: [(Format, &[u8]); 6] = [
    (Format::One, FIRST_VERSION),
    (Format::One, LAST_RECORD),
    (Format::Two { approval: false }, NEWER_VERSION),
    (Format::Two { approval: true }, APPROVED_VERSION),
    (Format::One, LATER_VERSION),
    (Format::Two { approval: true }, LATER_NEWER_VERSION),
];

// The version is written so.
fn assert_written(rt: &(impl Abort + AllocGlobal), version: VersionParts, text: &[u8]) {
    let written = write_version(rt.alloc(), &version);
    drop(version);
    let written = written.expect(rt, "a text");
    assert_eq!(rt; written.as_slice(), text);
    drop(written);
}

// A copy of the version that has the text.
fn copy_read(rt: &(impl Abort + AllocGlobal), text: &[u8]) -> VersionParts {
    let version = read_version(rt.alloc(), text).expect(rt, "a version");
    let copy = version.copy();
    drop(version);
    copy.expect(rt, "a copy")
}

// No other parts are written so: that is proved (`one_spelling`).
#[test]
fn versions_are_read_copied_and_written_again(rt: HostRuntime) {
    for &(format, text) in &VERSIONS {
        let version = copy_read(&rt, text);
        let read = version.format;
        assert_written(&rt, version, text);
        assert_eq!(rt; read, format);
    }
}

// The bytes before the rows of a version that has 200, and two of its rows.
const FRONT: &[u8] = b"11:labrecord 1\n4:aqua\n1:1\n1:1\n5:water\n1:1\n2:S1\n1:-\n0:\n3:dan\n\
    20:1970-01-01T00:16:40Z\n3:200\n";

const ROWS: &[u8] = b"4:lead\n4:7.50\n4:mg/L\n3:dan\n20:1970-01-01T00:18:20Z\n0:\n\
    4:lead\n3:7.5\n4:mg/L\n3:dan\n20:1970-01-01T00:18:20Z\n13:misread scale\n";

fn joined(rt: &(impl Abort + AllocGlobal), front: &[u8], rest: &[u8], times: usize) -> Vec<u8> {
    let mut text = Vec::new(rt.alloc());
    text.extend_from_slice(front).expect(rt, "memory");
    for _ in 0..times {
        text.extend_from_slice(rest).expect(rt, "memory");
    }
    text
}

#[test]
fn many_rows_are_read_copied_and_written_again(rt: HostRuntime) {
    let text = joined(&rt, FRONT, ROWS, 100);
    let version = copy_read(&rt, &text);
    assert_written(&rt, version, &text);
    drop(text);
}

// A code, key, name, note or unit.
fn text<R: TextRule>(rt: &(impl Abort + AllocGlobal), text: &str) -> Text<R> {
    Text::parse(rt.alloc(), text).expect(rt, "a text that its rule admits")
}

fn moment(rt: &impl Abort, seconds: i64) -> Moment {
    Moment::from_seconds(seconds).expect(rt, "a moment")
}

fn row(rt: &(impl Abort + AllocGlobal), value: &str, reason: Option<Note>) -> EntryRow {
    EntryRow {
        moment: moment(rt, 1100),
        key: text(rt, "lead"),
        value: text(rt, value),
        unit: text(rt, "mg/L"),
        person: text(rt, "dan"),
        reason,
    }
}

fn two_rows(rt: &(impl Abort + AllocGlobal)) -> EntryRows {
    let mut rows = Vec::new(rt.alloc());
    rows.push(row(rt, "7.50", None)).expect(rt, "memory");
    let reason = Some(text(rt, "misread scale"));
    rows.push(row(rt, "7.5", reason)).expect(rt, "memory");
    EntryRows::new(rows)
}

// The origin of a second version, which amends the digest of `abc`.
fn origin(rt: &(impl Abort + AllocGlobal)) -> Origin {
    let amendment = Amendment {
        previous: digest(b"abc"),
        reason: text(rt, "one decimal is meant"),
    };
    let number = Ordinal::new(2).expect(rt, "a number");
    Origin::amending(number, amendment).expect(rt, "an origin")
}

fn amended_version(rt: &(impl Abort + AllocGlobal)) -> VersionParts {
    VersionParts {
        format: Format::One,
        record_number: Ordinal::FIRST,
        form_version: Ordinal::FIRST,
        opened: moment(rt, 1000),
        lab: text(rt, "aqua"),
        origin: origin(rt),
        form: text(rt, "water"),
        sample: text(rt, "S\u{e9}"),
        opener: text(rt, "dan"),
        rows: two_rows(rt),
    }
}

// By hand, by the rule of docs/VERSIONS.md.
const AMENDED_VERSION: &[u8] = b"11:labrecord 1\n4:aqua\n1:1\n1:2\n5:water\n1:1\n3:S\xc3\xa9\n\
    64:ba7816bf8f01cfea414140de5dae2223b00361a396177a9cb410ff61f20015ad\n\
    20:one decimal is meant\n3:dan\n20:1970-01-01T00:16:40Z\n1:2\n\
    4:lead\n4:7.50\n4:mg/L\n3:dan\n20:1970-01-01T00:18:20Z\n0:\n\
    4:lead\n3:7.5\n4:mg/L\n3:dan\n20:1970-01-01T00:18:20Z\n13:misread scale\n";

#[test]
fn text_of_an_amended_version_counts_bytes(rt: HostRuntime) {
    assert_written(&rt, amended_version(&rt), AMENDED_VERSION);
}

// What follows the first version's heading, its subject and its origin.
const AFTER_HEADING: &[u8] = b"5:water\n1:1\n2:S1\n1:-\n0:\n3:dan\n\
    20:1970-01-01T00:16:40Z\n1:1\n4:lead\n4:7.50\n4:mg/L\n3:dan\n20:1970-01-01T00:18:20Z\n0:\n";

const AFTER_SUBJECT: &[u8] = b"1:-\n0:\n3:dan\n\
    20:1970-01-01T00:16:40Z\n1:1\n4:lead\n4:7.50\n4:mg/L\n3:dan\n20:1970-01-01T00:18:20Z\n0:\n";

const AFTER_ORIGIN: &[u8] = b"3:dan\n\
    20:1970-01-01T00:16:40Z\n1:1\n4:lead\n4:7.50\n4:mg/L\n3:dan\n20:1970-01-01T00:18:20Z\n0:\n";

// Texts of no version, each in two parts. That no text of a version is another's front is proved.
static REFUSED: [(&[u8], &[u8]); 25] = [
    // none, and first versions cut and longer
    (b"", b""),
    (b"11:labrecord 1\n4:aqua\n1:1\n1:1\n", b""),
    (FIRST_VERSION, b"\n"),
    (FIRST_VERSION, b"0:\n"),
    (FIRST_VERSION, FIRST_VERSION),
    // headings
    (b"11:labrecord 1\n04:aqua\n1:1\n1:1\n", AFTER_HEADING),
    (b"11:labrecord 1\n+4:aqua\n1:1\n1:1\n", AFTER_HEADING),
    (b"11:labrecord 1\n4:Aqua\n1:1\n1:1\n", AFTER_HEADING),
    (b"11:labrecord 1\n4:aqua\r\n1:1\n1:1\n", AFTER_HEADING),
    (b"11:labrecord 2\n4:aqua\n1:1\n1:1\n", AFTER_HEADING),
    (b"11:labrecord 3\n4:aqua\n1:1\n1:1\n", AFTER_HEADING),
    (b"11:labrecord 1\n4:aqua\n2:01\n1:1\n", AFTER_HEADING),
    (b"11:labrecord 1\n4:aqua\n1:0\n1:1\n", AFTER_HEADING),
    (
        b"11:labrecord 1\n4:aqua\n10:1000000001\n1:1\n",
        AFTER_HEADING,
    ),
    (b"11:labrecord 1\n4:aqua\n1:1\n1:2\n", AFTER_HEADING),
    // subjects, the last two of format 2
    (
        b"11:labrecord 1\n4:aqua\n1:1\n1:1\n5:water\n1:1\n2: S\n",
        AFTER_SUBJECT,
    ),
    (
        b"11:labrecord 1\n4:aqua\n1:1\n1:1\n5:water\n1:1\n2:\xc3\x28\n",
        AFTER_SUBJECT,
    ),
    (
        b"11:labrecord 1\n4:aqua\n1:1\n1:1\n5:water\n1:1\n2:no\n2:S1\n",
        AFTER_SUBJECT,
    ),
    (
        b"11:labrecord 2\n4:aqua\n1:1\n1:1\n5:water\n1:1\n0:\n2:S1\n",
        AFTER_SUBJECT,
    ),
    (
        b"11:labrecord 2\n4:aqua\n1:1\n1:1\n5:water\n1:1\n3:Yes\n2:S1\n",
        AFTER_SUBJECT,
    ),
    // an origin, and openings
    (
        b"11:labrecord 1\n4:aqua\n1:1\n1:1\n5:water\n1:1\n2:S1\n1:-\n4:lost\n",
        AFTER_ORIGIN,
    ),
    (
        b"11:labrecord 1\n4:aqua\n1:1\n1:1\n5:water\n1:1\n2:S1\n1:-\n0:\n",
        b"3:dan\n20:1970-01-01T00:16:60Z\n1:0\n",
    ),
    (
        b"11:labrecord 1\n4:aqua\n1:1\n1:1\n5:water\n1:1\n2:S1\n1:-\n0:\n",
        b"3:dan\n20:1970-01-01T00:16:40Z\n1:1\n",
    ),
    // a later version needs the 64 lower hexadecimal digits of a digest, and a reason
    (
        b"11:labrecord 1\n4:aqua\n10:1000000000\n1:2\n5:water\n1:1\n2:S1\n\
        64:BA7816BF8F01CFEA414140DE5DAE2223B00361A396177A9CB410FF61F20015AD\n3:why\n",
        AFTER_ORIGIN,
    ),
    (
        b"11:labrecord 1\n4:aqua\n10:1000000000\n1:2\n5:water\n1:1\n2:S1\n\
        64:ba7816bf8f01cfea414140de5dae2223b00361a396177a9cb410ff61f20015ad\n0:\n",
        AFTER_ORIGIN,
    ),
];

#[test]
fn other_texts_are_refused(rt: HostRuntime) {
    for &(front, rest) in &REFUSED {
        let text = joined(&rt, front, rest, 1);
        let fault = read_version(rt.alloc(), &text).err();
        assert_eq!(rt; fault, Some(TextFault::Refused(BadText)), "of {text:?}");
        drop(text);
    }
    one_spelling();
}
