//! The older schemas of which files are moved.

ghost use Rattle.std.specs.Prelude.{◌≡◌, pos};
ghost use Rattle.lab_move_tables.specs.Olders.{number_of};
ghost use Rattle.lab_move_tables.specs.Questions.{form_text, person_text, version_text};

/// An older schema. What differs from one to the next stands in the arms of its functions.
#[derive(Clone, Copy, Debug, PartialEq, Eq)]
pub enum Older {
    /// Schema 2: without the approval of a form, the format of a version, and two of a person's numbers of rounds.
    Two,
}

impl Older {
    /// All of them, the oldest first.
    pub const ALL: [Older; 1] = [Older::Two];

    /// Its number.
    pub fn number(self) -> i64
        ensures { result ≡ pos (number_of self) }
    {
        match self {
            Older::Two => 2,
        }
    }

    // The question for the persons of a laboratory.
    pub(crate) fn person_text(self) -> &'static str
        ensures { result.now ≡ person_text self }
    {
        match self {
            Older::Two => {
                "SELECT code, name, roles, retired, failures, locked, kind, salt, rounds, bytes, salt2, bytes2, changed, asker, asked, ask_salt, ask_bytes FROM persons WHERE lab = ?1 ORDER BY code"
            }
        }
    }

    // The question for its versions of forms.
    pub(crate) fn form_text(self) -> &'static str
        ensures { result.now ≡ form_text self }
    {
        match self {
            Older::Two => {
                "SELECT id, code, version FROM forms WHERE lab = ?1 ORDER BY code, version"
            }
        }
    }

    // The question for the versions of a record.
    pub(crate) fn version_text(self) -> &'static str
        ensures { result.now ≡ version_text self }
    {
        match self {
            Older::Two => {
                "SELECT versions.id, versions.number, persons.code, versions.opened, versions.reason, persons.lab FROM versions, persons WHERE versions.record = ?1 AND persons.id = versions.opener ORDER BY versions.number"
            }
        }
    }
}
