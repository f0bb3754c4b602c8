//! Seals, of signatures that were copied.
use lab_forms_texts::{Text, TextRule};
use lab_seal_versions::{Digest, Meaning, Moment, SealParts, seal};
use std::process::Abort;

// A code, name or note.
fn text<R: TextRule>(rt: &(impl Abort + AllocGlobal), text: &str) -> Text<R> {
    Text::parse(rt.alloc(), text).expect(rt, "a text that its rule admits")
}

// The SHA-256 of the 142 bytes of a version's text, by Python's `hashlib`.
const VERSION_DIGITS: &[u8; 64] =
    b"4de86afe6c7333e1c5bf6582c621445ce648c9d770e46b4ef596f3f9c4699623";

// Who signs, as which of the four meanings, at which second, and the seal that Python's `hashlib`
// gives of the seven items.
static SEALS: [(&str, &str, usize, i64, &[u8; 64]); 4] = [
    (
        "dan",
        "Dan D\u{fc}r",
        0,
        1300,
        b"9863b66df0088378760b1aaab4eea6128e132387df97bb1dd73dadedbc443a89",
    ),
    (
        "eve",
        "Eve Eden",
        1,
        1400,
        b"283cd999dd2b5ac3e31bcefe8e2e7747896b395c8c15c9777b2debae5f6d6e6b",
    ),
    (
        "eve",
        "Eve Eden",
        2,
        1400,
        b"e712259c7184fb7dc48eb62e198c3731e152be56999339519e1fb7e49c2b9156",
    ),
    (
        "gus",
        "Gus Gold",
        3,
        1500,
        b"fdeb3d3313ae7fdc89ec717d60cedce483f19f19309408619502c4adbf2728b9",
    ),
];

fn meaning_of(rt: &(impl Abort + AllocGlobal), place: usize) -> Meaning {
    match place {
        0 => Meaning::Authorship,
        1 => Meaning::Review,
        2 => Meaning::Rejection(text(rt, "misread scale")),
        _ => Meaning::Approval,
    }
}

fn seal_parts(
    rt: &(impl Abort + AllocGlobal),
    person: &str,
    name: &str,
    place: usize,
    seconds: i64,
) -> SealParts {
    SealParts {
        version: Digest::from_digits(VERSION_DIGITS).expect(rt, "64 digits"),
        moment: Moment::from_seconds(seconds).expect(rt, "a moment"),
        lab: text(rt, "aqua"),
        person: text(rt, person),
        name: text(rt, name),
        meaning: meaning_of(rt, place),
    }
}

fn copied(rt: &impl Abort, parts: SealParts) -> SealParts {
    let copy = parts.copy();
    drop(parts);
    copy.expect(rt, "a copy")
}

#[test]
fn seals_are_those_of_hashlib(rt: HostRuntime) {
    for &(person, name, place, seconds, digits) in &SEALS {
        let parts = copied(&rt, seal_parts(&rt, person, name, place, seconds));
        let found = seal(&parts).digits();
        drop(parts);
        assert_eq!(rt; found, *digits, "of {person} at {seconds}");
    }
}
