//! The replies of a laboratory.
use lab_forms_texts::{Key, LabCode, Moment, Name, Ordinal, PersonCode, Series};
use lab_people_access::Roles;
use lab_records_copies::CopyRow;
use lab_records_kept::{FormVersion, Signature, TrailRow};
use lab_records_rules::{PersonLine, RecordRead, RecordState, Refusal, VersionRead};
use lab_seal_hashes::{Half, Token};
use lab_seal_versions::{Digest, State};

/// A reply of a laboratory.
pub enum Reply {
    /// A refusal.
    Refused(Refusal),
    /// The laboratory's card.
    Card {
        lab: LabCode,
        name: Name,
    },
    /// A session was opened: the session, its token, which is returned once, and whether the
    /// password is due to be changed.
    Opened {
        session: Ordinal,
        token: Token,
        due: bool,
    },
    /// The session was closed.
    Closed {
        session: Ordinal,
    },
    /// The password was changed at the moment.
    PasswordChanged {
        changed: Moment,
    },
    /// The person was enrolled, retired or unlocked.
    PersonDone {
        code: PersonCode,
    },
    /// A half of a one-time word, which is returned once.
    HalfTold {
        half: Half,
    },
    /// The person has these roles.
    RolesSet {
        code: PersonCode,
        roles: Roles,
    },
    /// The persons, in the order of their codes.
    Persons(Series<PersonLine>),
    /// A version of a form was made.
    FormMade {
        code: Key,
        version: Ordinal,
    },
    /// A version of a form.
    FormRead(FormVersion),
    /// A record was opened, with this version.
    RecordOpened {
        number: Ordinal,
        version: Ordinal,
    },
    /// A value was entered; the version has this number of rows and this digest.
    Entered {
        number: Ordinal,
        version: Ordinal,
        rows: u64,
        digest: Digest,
    },
    /// The version was opened by an amendment, and has this digest.
    Amended {
        number: Ordinal,
        version: Ordinal,
        digest: Digest,
    },
    /// The version was signed, and has this state.
    Signed {
        signature: Signature,
        state: Option<State>,
    },
    /// A record.
    RecordRead(RecordRead),
    /// A version of a record.
    VersionRead(VersionRead),
    /// Records.
    Records(Series<RecordState>),
    /// Rows of the trail.
    Trail(Series<TrailRow>),
    /// The rows of an inspection copy, the header first.
    Copied(Series<CopyRow>),
}

// `drop` is written out, so that a caller doesn't prove again how each part is dropped.
impl Drop for Reply {
    fn drop(self) {
        match self {
            Reply::Refused(_) => {}
            Reply::Card { lab: _, name: _ } => {}
            Reply::Opened {
                session: _,
                token: _,
                due: _,
            } => {}
            Reply::Closed { session: _ } => {}
            Reply::PasswordChanged { changed: _ } => {}
            Reply::PersonDone { code: _ } => {}
            Reply::HalfTold { half: _ } => {}
            Reply::RolesSet { code: _, roles: _ } => {}
            Reply::Persons(_) => {}
            Reply::FormMade {
                code: _,
                version: _,
            } => {}
            Reply::FormRead(_) => {}
            Reply::RecordOpened {
                number: _,
                version: _,
            } => {}
            Reply::Entered {
                number: _,
                version: _,
                rows: _,
                digest: _,
            } => {}
            Reply::Amended {
                number: _,
                version: _,
                digest: _,
            } => {}
            Reply::Signed {
                signature: _,
                state: _,
            } => {}
            Reply::RecordRead(_) => {}
            Reply::VersionRead(_) => {}
            Reply::Records(_) => {}
            Reply::Trail(_) => {}
            Reply::Copied(_) => {}
        }
    }
}
