//! Who may sign a version, as what, and when: each refusal by itself, in the order in which they
//! are tested.
ghost use Rattle.std.specs.Prelude.{◌≡◌, option_copied};
ghost use Rattle.lab_records_versions.specs.Signing.{is_code_wanted, approval_refusal, state_refusal, digest_refusal, is_second, signer_refusal, reason_refusal};

use lab_forms_texts::PersonCode;
use lab_people_access::Session;
use lab_records_kept::{Signature, Version};
use lab_records_rules::{Refusal, Signing};
use lab_seal_versions::{Digest, State};

/// Whether the code is wanted in addition to the password: if it is the first signature in a
/// session, and no code is given.
pub fn is_code_wanted(session: &Session, code: Option<&PersonCode>) -> bool
    ensures { result ≡ is_code_wanted session.now (option_copied code.entry) }
{
    !session.signed && code.is_none()
}

/// The refusal of an approval that the form doesn't want.
pub fn approval_refusal(signing: &Signing, approval: bool) -> Option<Refusal>
    ensures { result ≡ approval_refusal signing.now approval }
{
    match (signing, approval) {
        (Signing::Approval, false) => Some(Refusal::ApprovalNotWanted),
        _ => None,
    }
}

/// The refusal of a signature that may not be given in the state.
pub fn state_refusal(signing: &Signing, state: Option<State>) -> Option<Refusal>
    ensures { result ≡ state_refusal signing.now state }
{
    match (signing, state) {
        (Signing::Authorship, Some(State::Open)) => None,
        (Signing::Authorship, _) => Some(Refusal::AlreadySigned),
        (_, Some(State::Open)) => Some(Refusal::NotSigned),
        (Signing::Review, Some(State::Signed)) => None,
        (Signing::Approval, Some(State::Signed)) => Some(Refusal::NotSigned),
        (Signing::Approval, Some(State::Reviewed)) => None,
        (Signing::Rejection(_), Some(State::Signed | State::Reviewed)) => None,
        _ => Some(Refusal::AlreadySigned),
    }
}

/// The refusal of a digest that isn't the present one of the version.
pub fn digest_refusal(now: Digest, digest: Digest) -> Option<Refusal>
    ensures { result ≡ digest_refusal now digest }
{
    if digest == now {
        None
    } else {
        Some(Refusal::StaleDigest(now))
    }
}

// Whether the person gave the second signature.
fn is_second(person: &PersonCode, signatures: &[Signature]) -> bool
    ensures { result ≡ is_second person.now signatures.now }
{
    match signatures {
        [_, second, ..] => second.person.as_str() == person.as_str(),
        _ => false,
    }
}

/// The refusal of a person who may not sign the version as this.
pub fn signer_refusal(signing: &Signing, version: &Version, person: &PersonCode) -> Option<Refusal>
    ensures { result ≡ signer_refusal signing.now version.now person.now }
{
    let has_entered = version.has_entered(person);
    match signing {
        Signing::Authorship => {
            if has_entered {
                None
            } else {
                Some(Refusal::NotAuthor)
            }
        }
        Signing::Review | Signing::Rejection(_) | Signing::Approval => {
            if has_entered || is_second(person, version.signatures.as_slice()) {
                Some(Refusal::OwnWork)
            } else {
                None
            }
        }
    }
}

/// The refusal of a rejection without a reason.
pub fn reason_refusal(signing: &Signing) -> Option<Refusal>
    ensures { result ≡ reason_refusal signing.now }
{
    match signing {
        Signing::Rejection(None) => Some(Refusal::ReasonWanted),
        _ => None,
    }
}
