//! A laboratory in a list that has two records: one that is released and amended, and one that is
//! rejected.
use crate::made::{moment, newborn, text};
use lab_records_keeper::Keeper;
use lab_records_kept::{
    Amendment, Bound, Change, Digest, EntryRow, EntryRows, Field, Form, FormVersion, Format, Kind,
    LabCode, Meaning, Ordinal, Origin, Record, Seal, Series, Signature, Version,
};
use lab_records_memory::Lists;
use std::process::Abort;

// Key, value and unit of a row, when dan entered it, and why.
type Entered = (
    &'static str,
    &'static str,
    &'static str,
    i64,
    Option<&'static str>,
);

// Who signed, under which name, why where it was rejected, when, and the seal.
type Signed = (&'static str, &'static str, &'static str, i64, &'static str);

const RELEASED: &str = "79610b0b80020b06ccc32eb56d5e2930ad6cea239d32569de11013459ebf2b0c";

const REJECTED: &str = "aca9fac6c67453bacd5144ffac103fd817fe3563d2d11ba49c108528af607e1e";

const MISREAD: &str = "misread: \"7,50\"";

const FIRST: [Entered; 1] = [("lead", "7.50", "mg/L", 1100, None)];

const AMENDED: Entered = ("lead", "7.5", "mg/L", 1220, Some(MISREAD));

const SECOND: [Entered; 2] = [
    ("lead", "<0.05", "mg/L", 1240, None),
    ("note", "it says \"clear\"", "", 1250, None),
];

const RELEASING: [Signed; 2] = [
    (
        "dan",
        "Dan Day",
        "authorship",
        1200,
        "264cbf825abc0622caf3055b4450d7f32efad956706b2101174e01c663b35ec4",
    ),
    (
        "eve",
        "Eve Ems",
        "review",
        1210,
        "711fb768e707d956a0c92bf004b2807206d8df9f5a1f4ab9b09151f1e35c6275",
    ),
];

const REJECTING: [Signed; 2] = [
    (
        "dan",
        "Dan Day",
        "authorship",
        1260,
        "2b75dc9ee5049df89e86635fd82a2fdb2083985b0d64735a20e6bec01bfc4f78",
    ),
    (
        "fay",
        "Fay Fox",
        "no blank",
        1270,
        "5ef26b6c2634fd624201a7edeb4ac6bcdd6d95ef8a4e20b48be6d7e4c0d97ee0",
    ),
];

fn digest(rt: &impl Abort, digits: &str) -> Digest {
    Digest::from_digits(digits.as_bytes()).expect(rt, "a digest")
}

fn seal(rt: &impl Abort, digits: &str) -> Seal {
    Seal::from_digits(digits.as_bytes()).expect(rt, "a seal")
}

// The meaning of that word; any other is why a version was rejected.
fn meaning(rt: &(impl Abort + AllocGlobal), word: &str) -> Meaning {
    match word {
        "authorship" => Meaning::Authorship,
        "review" => Meaning::Review,
        reason => Meaning::Rejection(text(rt, reason)),
    }
}

fn row(rt: &(impl Abort + AllocGlobal), entered: Entered) -> EntryRow {
    let (key, value, unit, seconds, reason) = entered;
    EntryRow {
        key: text(rt, key),
        value: text(rt, value),
        unit: text(rt, unit),
        person: text(rt, "dan"),
        moment: moment(rt, seconds),
        reason: match reason {
            Some(reason) => Some(text(rt, reason)),
            None => None,
        },
    }
}

fn signature(rt: &(impl Abort + AllocGlobal), signed: Signed, digits: &str) -> Signature {
    let (person, name, word, seconds, of) = signed;
    Signature {
        person: text(rt, person),
        name: text(rt, name),
        meaning: meaning(rt, word),
        moment: moment(rt, seconds),
        digest: digest(rt, digits),
        seal: seal(rt, of),
    }
}

// A version without signatures.
fn version(
    rt: &(impl Abort + AllocGlobal),
    origin: Origin,
    seconds: i64,
    rows: EntryRows,
) -> Version {
    Version {
        format: Format::Two { approval: false },
        origin,
        opener: text(rt, "dan"),
        opened: moment(rt, seconds),
        rows,
        signatures: Series::new(rt.alloc()),
    }
}

// The first version of a record, without rows.
fn first_version(rt: &(impl Abort + AllocGlobal), seconds: i64) -> Version {
    let rows = EntryRows::new(Vec::new(rt.alloc()));
    version(rt, Origin::first(), seconds, rows)
}

// What the second version of the first record amends.
fn amending(rt: &(impl Abort + AllocGlobal)) -> Origin {
    let amendment = Amendment {
        previous: digest(rt, RELEASED),
        reason: text(rt, MISREAD),
    };
    let second = Ordinal::new(2).expect(rt, "an ordinal");
    Origin::amending(second, amendment).expect(rt, "a later version")
}

fn second_version(rt: &(impl Abort + AllocGlobal)) -> Version {
    let mut rows = Vec::new(rt.alloc());
    rows.push(row(rt, AMENDED)).expect(rt, "memory");
    version(rt, amending(rt), 1220, EntryRows::new(rows))
}

fn lead(rt: &(impl Abort + AllocGlobal)) -> Field {
    let least = String::from_str(rt.alloc(), "0").expect(rt, "memory");
    Field {
        key: text(rt, "lead"),
        label: text(rt, "Lead"),
        required: true,
        kind: Kind::Number {
            unit: text(rt, "mg/L"),
            decimals: 2,
            min: Some(Bound::new(least)),
            max: None,
        },
    }
}

fn note(rt: &(impl Abort + AllocGlobal)) -> Field {
    Field {
        key: text(rt, "note"),
        label: text(rt, "Note"),
        required: false,
        kind: Kind::Text { size: 200 },
    }
}

fn water(rt: &(impl Abort + AllocGlobal)) -> FormVersion {
    let mut fields = Vec::new(rt.alloc());
    fields.push(lead(rt)).expect(rt, "memory");
    fields.push(note(rt)).expect(rt, "memory");
    FormVersion {
        code: text(rt, "water"),
        version: Ordinal::FIRST,
        form: Form::make(fields, false).expect(rt, "a form"),
    }
}

fn record_added(
    rt: &(impl Abort + AllocGlobal),
    number: Ordinal,
    sample: &str,
    first: Version,
) -> Change {
    let mut versions = Series::new(rt.alloc());
    versions.push(first).expect(rt, "memory");
    Change::RecordAdded(Record {
        number,
        form: water(rt),
        sample: text(rt, sample),
        versions,
    })
}

fn add(rt: &impl Abort, changes: &mut Series<Change>, change: Change) {
    changes.push(change).expect(rt, "memory");
}

fn add_rows(
    rt: &(impl Abort + AllocGlobal),
    changes: &mut Series<Change>,
    record: Ordinal,
    all: &[Entered],
) {
    for &entered in all {
        let row = row(rt, entered);
        add(rt, changes, Change::RowAdded { record, row });
    }
}

// Signatures of the first version.
fn add_signatures(
    rt: &(impl Abort + AllocGlobal),
    changes: &mut Series<Change>,
    record: Ordinal,
    all: &[Signed],
    digits: &str,
) {
    for &signed in all {
        let signature = signature(rt, signed, digits);
        let version = Ordinal::FIRST;
        let one = Change::SignatureAdded {
            record,
            version,
            signature,
        };
        add(rt, changes, one);
    }
}

fn add_amended(rt: &(impl Abort + AllocGlobal), changes: &mut Series<Change>) {
    let record = Ordinal::FIRST;
    let first = first_version(rt, 1000);
    add(rt, changes, record_added(rt, record, "S1", first));
    add_rows(rt, changes, record, &FIRST);
    add_signatures(rt, changes, record, &RELEASING, RELEASED);
    let version = second_version(rt);
    add(rt, changes, Change::VersionOpened { record, version });
}

fn add_rejected(rt: &(impl Abort + AllocGlobal), changes: &mut Series<Change>) {
    let record = Ordinal::new(2).expect(rt, "an ordinal");
    let first = first_version(rt, 1230);
    add(rt, changes, record_added(rt, record, "Sample, two", first));
    add_rows(rt, changes, record, &SECOND);
    add_signatures(rt, changes, record, &REJECTING, REJECTED);
}

// The form, and the records step by step.
fn steps(rt: &(impl Abort + AllocGlobal)) -> Series<Change> {
    let mut changes = Series::new(rt.alloc());
    add(rt, &mut changes, Change::FormAdded(water(rt)));
    add_amended(rt, &mut changes);
    add_rejected(rt, &mut changes);
    changes
}

/// A laboratory with these records, in a list.
pub(crate) fn lists(rt: &(impl Abort + AllocGlobal), code: &LabCode) -> Lists {
    let mut lists = Lists::new(rt.alloc());
    lists.found(newborn(rt, "Aqua Lab")).expect(rt, "memory");
    lists.apply(code, steps(rt)).expect(rt, "memory");
    lists
}
