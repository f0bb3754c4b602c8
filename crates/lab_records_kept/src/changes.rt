//! The changes of a laboratory.
use crate::records::{FormVersion, Record, Signature, Version};
use crate::trails::TrailRow;
use lab_forms_texts::{Moment, Ordinal, PersonCode};
use lab_people_access::{Closing, Person, Session};
use lab_seal_versions::EntryRow;

/// One change of a laboratory.
pub enum Change {
    /// The moment of the last activity becomes this moment.
    Last(Moment),
    /// The number of passwords that count as stray becomes this number.
    Strays(u64),
    /// A person is added.
    PersonAdded(Person),
    /// The person with that code becomes this person.
    PersonSet(Person),
    /// A session is added.
    SessionAdded(Session),
    /// The session with that token becomes this session.
    SessionSet(Session),
    /// Sessions of the person are closed.
    SessionsClosed {
        person: PersonCode,
        closing: Closing,
    },
    /// A version of a form is added.
    FormAdded(FormVersion),
    /// A record is added, with its first version.
    RecordAdded(Record),
    /// A row is added to the last version of the record.
    RowAdded {
        record: Ordinal,
        row: EntryRow,
    },
    /// A version of the record is opened.
    VersionOpened {
        record: Ordinal,
        version: Version,
    },
    /// The version of the record is signed.
    SignatureAdded {
        record: Ordinal,
        version: Ordinal,
        signature: Signature,
    },
    /// A row is added to the trail.
    TrailAdded(TrailRow),
}

impl Drop for Change {
    fn drop(self) {
        match self {
            Change::Last(_) => {}
            Change::Strays(_) => {}
            Change::PersonAdded(_) => {}
            Change::PersonSet(_) => {}
            Change::SessionAdded(_) => {}
            Change::SessionSet(_) => {}
            Change::SessionsClosed {
                person: _,
                closing: _,
            } => {}
            Change::FormAdded(_) => {}
            Change::RecordAdded(_) => {}
            Change::RowAdded { record: _, row: _ } => {}
            Change::VersionOpened {
                record: _,
                version: _,
            } => {}
            Change::SignatureAdded {
                record: _,
                version: _,
                signature: _,
            } => {}
            Change::TrailAdded(_) => {}
        }
    }
}
