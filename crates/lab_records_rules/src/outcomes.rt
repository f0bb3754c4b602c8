//! What a signature is asked for, and what commands on records return.
ghost use Rattle.std.specs.Prelude.{◌≡◌};
ghost use Rattle.lab_records_rules.specs.SigningPolicy.{signing_rule};

use lab_forms_texts::{Note, Ordinal};
use lab_people_access::Rule;
use lab_records_kept::{Signature, Version};
use lab_seal_versions::{Digest, EntryRow, State};

/// What a person asks to sign a version as.
#[derive(Drop)]
pub enum Signing {
    /// As author.
    Authorship,
    /// As reviewer.
    Review,
    /// To reject it, with the reason, if one is given.
    Rejection(Option<Note>),
    /// As the third person, who approves.
    Approval,
}

impl Signing {
    /// The rule of the policy for this kind of signature.
    pub fn rule(&self) -> Rule
        ensures { result ≡ signing_rule self.now }
    {
        match self {
            Signing::Authorship => Rule::SignAuthorship,
            Signing::Review => Rule::SignReview,
            Signing::Rejection(_) => Rule::SignRejection,
            Signing::Approval => Rule::SignApproval,
        }
    }
}

/// A value that was entered: its row, and how many rows and which digest the version has then.
#[derive(Drop)]
pub struct EntryMade {
    /// The record's number.
    pub number: Ordinal,
    /// The version's number.
    pub version: Ordinal,
    /// The row of the value.
    pub row: EntryRow,
    /// The number of rows of the version, with this row.
    pub rows: u64,
    /// The digest of the version, with this row.
    pub digest: Digest,
}

/// A version that an amendment opened.
#[derive(Drop)]
pub struct AmendmentMade {
    /// The record's number.
    pub number: Ordinal,
    /// The version.
    pub version: Version,
    /// The digest of the version.
    pub digest: Digest,
}

/// A signature that was given.
#[derive(Drop)]
pub struct SignatureMade {
    /// The record's number.
    pub number: Ordinal,
    /// The version's number.
    pub version: Ordinal,
    /// The signature.
    pub signature: Signature,
    /// The state of the version, with this signature.
    pub state: Option<State>,
}
