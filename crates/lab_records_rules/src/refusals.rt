//! What the machine of a laboratory refuses.
ghost use Rattle.lab_records_rules.specs.Refusals.{refusal_entry};

use lab_forms::FormRefusal;
use lab_forms_texts::{Key, Ordinal, RefusalKind};
use lab_people_access::PeopleRefusal;
use lab_seal_hashes::Digest;
use std::fmt;
use thiserror::Error;

/// What the machine of a laboratory refuses, with what the refusal states. A refusal is printed as
/// its word.
#[derive(Debug, Error)]
pub enum Refusal {
    /// There is no such laboratory.
    NoSuchLab,
    /// The moment is before the moment of the laboratory's last activity.
    ClockBehind,
    /// A refusal of persons and sessions.
    People(PeopleRefusal),
    /// A refusal of a form.
    Form(FormRefusal),
    /// There is no such form, or no such version of the form.
    NoSuchForm,
    /// The form and the sample already have a record, with this number.
    RecordExists(Ordinal),
    /// There is no such record.
    NoSuchRecord,
    /// The record has no such version.
    NoSuchVersion,
    /// The last version of the record isn't open.
    NotOpen,
    /// A reason is wanted.
    ReasonWanted,
    /// Nothing is altered.
    NothingAltered,
    /// The value is the present value of the key.
    NotAltered(Key),
    /// The last version of the record is neither released nor rejected.
    AmendmentOpen,
    /// Entries that the form requires are missing.
    EntriesMissing,
    /// The digest isn't that of the version, which has this one.
    StaleDigest(Digest),
    /// The version is already signed.
    AlreadySigned,
    /// The person who signs entered a row of the version, or reviewed the version.
    OwnWork,
    /// The person who signs as author entered no row of the version.
    NotAuthor,
    /// The version lacks a signature that must come before this one.
    NotSigned,
    /// The code is wanted for the first signature in a session.
    CodeWanted,
    /// The form wants no approval.
    ApprovalNotWanted,
}

// `drop` is written out, so that a caller doesn't prove again how each part is dropped.
impl Drop for Refusal {
    fn drop(self) {
        match self {
            Refusal::NoSuchLab => {}
            Refusal::ClockBehind => {}
            Refusal::People(_) => {}
            Refusal::Form(_) => {}
            Refusal::NoSuchForm => {}
            Refusal::RecordExists(_) => {}
            Refusal::NoSuchRecord => {}
            Refusal::NoSuchVersion => {}
            Refusal::NotOpen => {}
            Refusal::ReasonWanted => {}
            Refusal::NothingAltered => {}
            Refusal::NotAltered(_) => {}
            Refusal::AmendmentOpen => {}
            Refusal::EntriesMissing => {}
            Refusal::StaleDigest(_) => {}
            Refusal::AlreadySigned => {}
            Refusal::OwnWork => {}
            Refusal::NotAuthor => {}
            Refusal::NotSigned => {}
            Refusal::CodeWanted => {}
            Refusal::ApprovalNotWanted => {}
        }
    }
}

impl RefusalKind for Refusal {
    ghost listed = { refusal_entry };

    fn entry(&self) -> (u32, &'static str) {
        match self {
            Refusal::NoSuchLab => (40, "no_such_lab"),
            Refusal::ClockBehind => (41, "clock_behind"),
            Refusal::People(refusal) => refusal.entry(),
            Refusal::Form(refusal) => refusal.entry(),
            Refusal::NoSuchForm => (42, "no_such_form"),
            Refusal::RecordExists(_) => (43, "record_exists"),
            Refusal::NoSuchRecord => (44, "no_such_record"),
            Refusal::NoSuchVersion => (45, "no_such_version"),
            Refusal::NotOpen => (46, "not_open"),
            Refusal::ReasonWanted => (47, "reason_wanted"),
            Refusal::NothingAltered => (48, "nothing_altered"),
            Refusal::NotAltered(_) => (49, "not_altered"),
            Refusal::AmendmentOpen => (50, "amendment_open"),
            Refusal::EntriesMissing => (51, "entries_missing"),
            Refusal::StaleDigest(_) => (52, "stale_digest"),
            Refusal::AlreadySigned => (53, "already_signed"),
            Refusal::OwnWork => (54, "own_work"),
            Refusal::NotAuthor => (55, "not_author"),
            Refusal::NotSigned => (56, "not_signed"),
            Refusal::CodeWanted => (57, "code_wanted"),
            Refusal::ApprovalNotWanted => (58, "approval_not_wanted"),
        }
    }
}

impl fmt::Display for Refusal {
    ghost use Rattle.std.specs.Prelude.{Some};
    ghost use Rattle.lab_records_rules.specs.Refusals.{refusal_entry};

    ghost output = { λ refusal. Some (refusal_entry refusal).word };

    fn fmt<W: fmt::Write>(&self, f: &mut fmt::Formatter<W>) -> fmt::Result {
        f.write_str(self.word())
    }
}
