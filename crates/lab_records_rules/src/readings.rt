//! What commands read of a laboratory.
use lab_forms_texts::{Key, Name, Ordinal, PersonCode, Series};
use lab_people_access::Roles;
use lab_records_kept::{FormVersion, Version};
use lab_seal_versions::{Digest, EntryRow, State};

/// The state of a version of a record, and its digest.
#[derive(Drop)]
pub struct VersionState {
    /// The version's number.
    pub version: Ordinal,
    /// The state of the version; `None` only if the laboratory isn't under dual control.
    pub state: Option<State>,
    /// The digest of the version.
    pub digest: Digest,
}

/// A record with the states of its versions.
pub struct RecordRead {
    /// The number of the record.
    pub number: Ordinal,
    /// The version of the form with which the record is filled in.
    pub form: FormVersion,
    /// The sample that the record is about.
    pub sample: Name,
    /// The states and digests of the versions, in order.
    pub versions: Series<VersionState>,
}

// `drop` is written out, so that a caller doesn't prove again how each part is dropped.
impl Drop for RecordRead {
    fn drop(self) {
        let RecordRead {
            number: _,
            form: _,
            sample: _,
            versions: _,
        } = self;
    }
}

/// A version of a record, with its state, its digest and the values at it.
pub struct VersionRead {
    /// The record's number.
    pub number: Ordinal,
    /// The version of the form with which the record is filled in.
    pub form: FormVersion,
    /// The sample that the record is about.
    pub sample: Name,
    /// The version.
    pub version: Version,
    /// The state of the version; `None` only if the laboratory isn't under dual control.
    pub state: Option<State>,
    /// The digest of the version.
    pub digest: Digest,
    /// The keys that the version altered, in the order of the form.
    pub altered: Series<Key>,
    /// The values of the record at this version, in the order of the form.
    pub values: Series<EntryRow>,
}

// `drop` is written out, so that a caller doesn't prove again how each part is dropped.
impl Drop for VersionRead {
    fn drop(self) {
        let VersionRead {
            number: _,
            form: _,
            sample: _,
            version: _,
            state: _,
            digest: _,
            altered: _,
            values: _,
        } = self;
    }
}

/// A record as lists show it, with the state of its last version.
pub struct RecordState {
    /// The number of the record.
    pub number: Ordinal,
    /// The key of the form.
    pub form: Key,
    /// The sample that the record is about.
    pub sample: Name,
    /// The number of the last version.
    pub current: Option<Ordinal>,
    /// The state of the last version.
    pub state: Option<State>,
}

// `drop` is written out, so that a caller doesn't prove again how each part is dropped.
impl Drop for RecordState {
    fn drop(self) {
        let RecordState {
            number: _,
            form: _,
            sample: _,
            current: _,
            state: _,
        } = self;
    }
}

/// A person as lists show persons.
pub struct PersonLine {
    /// The code.
    pub code: PersonCode,
    /// The printed name.
    pub name: Name,
    /// The roles of the person.
    pub roles: Roles,
    /// Whether the person is retired.
    pub retired: bool,
    /// Whether the account is locked at the moment.
    pub locked: bool,
}

// `drop` is written out, so that a caller doesn't prove again how each part is dropped.
impl Drop for PersonLine {
    fn drop(self) {
        let PersonLine {
            code: _,
            name: _,
            roles: _,
            retired: _,
            locked: _,
        } = self;
    }
}
