//! The part of a laboratory that a command needs.
ghost use Rattle.std.specs.Prelude.{◌≡◌, option_copied};

use crate::found::FoundRecord;
use crate::records::{FormVersion, Record};
use crate::trails::TrailRow;
use lab_forms_texts::{Key, LabCode, Moment, Name, Ordinal, PersonCode, Series};
use lab_people_access::{Person, Session};
use lab_seal_versions::Digest;

/// Which version of a form is needed.
#[derive(Drop)]
pub enum FormWanted {
    /// The last version of the form.
    Last { code: Key },
    /// The version with the number.
    Exact { code: Key, version: Ordinal },
}

/// Which record is needed.
#[derive(Drop)]
pub enum RecordWanted {
    /// The record with the number.
    Numbered { number: Ordinal },
    /// The record of the form and the sample, with any version of the form.
    About { form: Key, sample: Name },
}

/// Which list is needed.
#[derive(Clone, Copy)]
pub enum ListWanted {
    /// All persons.
    Persons,
    /// The records from a number to a number.
    Records { from: Ordinal, to: Ordinal },
    /// The rows of the trail from a number to a number.
    Trail { from: Ordinal, to: Ordinal },
}

/// Which part of a laboratory is needed. Beside it, only the laboratory's code, name, last moment,
/// strays and counts are loaded.
pub struct Need {
    /// The session whose token has the digest, and the person of that session.
    pub token: Option<Digest>,
    /// The person with the code.
    pub person: Option<PersonCode>,
    /// A version of a form.
    pub form: Option<FormWanted>,
    /// A record.
    pub filed: Option<RecordWanted>,
    /// A list.
    pub list: Option<ListWanted>,
}

impl Drop for Need {
    fn drop(self) {
        let Need {
            token: _,
            person: _,
            form: _,
            filed: _,
            list: _,
        } = self;
    }
}

/// The numbers of things that a laboratory has.
#[derive(Clone, Copy)]
pub struct LabCounts {
    /// The number of persons, retired ones too.
    pub persons: u64,
    /// The number of sessions, closed ones too.
    pub sessions: u64,
    /// The number of records.
    pub records: u64,
    /// The number of rows of the trail.
    pub trail: u64,
}

/// A part of a laboratory.
pub struct Slice {
    /// The code of the laboratory.
    pub code: LabCode,
    /// The name of the laboratory.
    pub name: Name,
    /// The moment of the last activity.
    pub last: Moment,
    /// The number of passwords that count as stray.
    pub strays: u64,
    /// How many persons, sessions, records and rows of the trail the laboratory has.
    pub counts: LabCounts,
    /// The session that is needed, if it exists.
    pub session: Option<Session>,
    /// The person of that session.
    pub caller: Option<Person>,
    /// The person who is needed, if somebody has or had the code.
    pub person: Option<Person>,
    /// The version of a form that is needed, if it exists.
    pub form: Option<FormVersion>,
    /// The record that is needed, if it exists.
    pub filed: Option<FoundRecord>,
    /// The persons that are needed.
    pub persons: Series<Person>,
    /// The records that are needed.
    pub records: Series<Record>,
    /// The rows of the trail that are needed.
    pub trail: Series<TrailRow>,
}

impl Drop for Slice {
    fn drop(self) {
        let Slice {
            code: _,
            name: _,
            last: _,
            strays: _,
            counts: _,
            session: _,
            caller: _,
            person: _,
            form: _,
            filed: _,
            persons: _,
            records: _,
            trail: _,
        } = self;
    }
}

impl Slice {
    /// Returns only the record that is needed.
    pub fn into_filed(self) -> Option<Record>
        ensures { result ≡ self.filed }
    {
        let Slice {
            code: _,
            name: _,
            last: _,
            strays: _,
            counts: _,
            session: _,
            caller: _,
            person: _,
            form: _,
            filed,
            persons: _,
            records: _,
            trail: _,
        } = self;
        match filed {
            Some(found) => Some(found.into_kept()),
            None => None,
        }
    }

    /// The record that is needed.
    pub fn filed_kept(&self) -> Option<&Record>
        ensures { option_copied result ≡ self.now.filed }
    {
        match &self.filed {
            Some(found) => Some(found.kept()),
            None => None,
        }
    }

    /// Returns only the code and the name of the laboratory.
    pub fn into_naming(self) -> (LabCode, Name)
        ensures code { result.0 ≡ self.code }
        ensures name { result.1 ≡ self.name }
    {
        let Slice {
            code,
            name,
            last: _,
            strays: _,
            counts: _,
            session: _,
            caller: _,
            person: _,
            form: _,
            filed: _,
            persons: _,
            records: _,
            trail: _,
        } = self;
        (code, name)
    }
}
