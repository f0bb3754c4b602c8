//! The calls on versions and seals that take memory. Each has its arguments made for it alone, so that running out of
//! memory stops one call and no other.

use crate::results::{print_made, print_word};
use crate::sample_results::{both, made_of, text};
use crate::versions::{text_of, version, version_text};
use anyhow::{Context, Result};
use lab_forms_texts::{Moment, Ordinal};
use lab_seal::read_version;
use lab_seal_versions::{Amendment, Meaning, Origin, SealParts, VersionParts, digest};
use std::alloc::Global;
use std::io::{self, Print};

/// Makes each call once, and prints for each a text of what it gave, or the word of its fault.
pub(crate) fn print_record_growths(rt: &impl Print, alloc: Global) -> io::Result<()> {
    print_word(rt, version_text(alloc, 2), "text")?;
    print_sample(rt, read(alloc, version_text(alloc, 2)))?;
    print_sample(rt, read(alloc, text_of(alloc, later_version(alloc))))?;
    print_sample(rt, made_of(later_version(alloc), VersionParts::copy))?;
    print_signer(rt, made_of(seal_parts(alloc), SealParts::copy))
}

fn print_sample(rt: &impl Print, version: Result<VersionParts>) -> io::Result<()> {
    print_made(rt, version, |version| version.sample.as_str())
}

fn print_signer(rt: &impl Print, parts: Result<SealParts>) -> io::Result<()> {
    print_made(rt, parts, |parts| parts.name.as_str())
}

fn read(alloc: Global, text: Result<Vec<u8>>) -> Result<VersionParts> {
    made_of(text, |text| read_version(alloc, text.as_slice()))
}

// What a later version amends.
fn later_origin(alloc: Global) -> Result<Origin> {
    let number = Ordinal::FIRST.next().context("a second version")?;
    let amendment = Amendment {
        previous: digest(b"abc"),
        reason: text(alloc, "misread scale")?,
    };
    Origin::amending(number, amendment).context("a later version")
}

fn later_version(alloc: Global) -> Result<VersionParts> {
    let (origin, mut later) = both(later_origin(alloc), version(alloc, 1))?;
    later.origin = origin;
    Ok(later)
}

fn seal_parts(alloc: Global) -> Result<SealParts> {
    let moment = Moment::from_seconds(1300)?;
    let signer = both(text(alloc, "eve"), text(alloc, "Eve Ems"));
    let place = both(text(alloc, "aqua"), text(alloc, "misread scale"));
    let ((person, name), (lab, reason)) = both(signer, place)?;
    Ok(SealParts {
        version: digest(b"abc"),
        lab,
        person,
        name,
        meaning: Meaning::Rejection(reason),
        moment,
    })
}
