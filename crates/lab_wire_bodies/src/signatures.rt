//! The body of a signature, whose meaning decides whether it may have a reason.
ghost use Rattle.std.specs.Prelude.{◌≡◌, ◌∷◌, [], find, Ok, IfOk, IfErr};
ghost use Rattle.lab_wire_bodies.specs.declared.signatures.Meant.TheVariants.{Rejection, Approval};
ghost use Rattle.serde_json.specs.View.{view};
ghost use Rattle.lab_wire_members.specs.Members.{has_members};
ghost use Rattle.lab_wire_bodies.specs.Signatures.{meant_word, names_meant, meant_of, meant_in, signature_members, is_signature_body, signing_read, signature_by, signature_read, signature_named};
ghost use Rattle.lab_wire_members.specs.Readings.{FaultyInTurn};

use lab_forms_texts::{Notes, Ordinal, PersonCodes};
use lab_records_machine::{Command, RecordCommand, SessionCommand};
use lab_records_rules::Signing;
use lab_seal_hashes::Digest;
use lab_wire_members::{
    BodyFault, BodyRefusal, MemberWanted, digest_at, has_members, may, must, named_if_at,
    ordinal_at, str_at, typed_at, wanted_member,
};
use serde_json::Value;
use std::alloc::Global;

/// The meanings of signatures, by their words.
#[derive(Clone, Copy, Drop)]
pub enum Meant {
    Authorship,
    Review,
    Rejection,
    Approval,
}

impl Meant {
    fn word(self) -> &'static str
        ensures { result.now ≡ meant_word self }
    {
        match self {
            Meant::Authorship => "authorship",
            Meant::Review => "review",
            Meant::Rejection => "rejection",
            Meant::Approval => "approval",
        }
    }
}

const SIGNATURE: [MemberWanted; 6] = [
    must!("record", Ordinal),
    must!("version", Ordinal),
    must!("digest", Digest),
    must!("meaning", Text),
    must!("password", Text),
    may!("code", Text),
];

const REJECTION: [MemberWanted; 7] = [
    must!("record", Ordinal),
    must!("version", Ordinal),
    must!("digest", Digest),
    must!("meaning", Text),
    must!("password", Text),
    may!("code", Text),
    may!("reason", Text),
];

fn later_meant_of(word: &str) -> Option<Meant>
    ensures { result ≡ find (names_meant word.now) (Rejection ∷ Approval ∷ []) }
{
    if word == Meant::Rejection.word() {
        Some(Meant::Rejection)
    } else if word == Meant::Approval.word() {
        Some(Meant::Approval)
    } else {
        None
    }
}

fn meant_of(word: &str) -> Option<Meant>
    ensures { result ≡ meant_of word.now }
{
    if word == Meant::Authorship.word() {
        Some(Meant::Authorship)
    } else if word == Meant::Review.word() {
        Some(Meant::Review)
    } else {
        later_meant_of(word)
    }
}

fn meant_in(value: &Value) -> Option<Meant>
    ensures { result ≡ meant_in (view value.now) }
{
    meant_of(str_at(value, "meaning")?)
}

// Whether a value has the members of a signature of this meaning.
fn has_meant(value: &Value, meant: Meant) -> bool
    ensures { result ≡ has_members (signature_members meant) (view value.now) }
{
    match meant {
        Meant::Rejection => has_members(value, &REJECTION),
        Meant::Authorship => has_members(value, &SIGNATURE),
        Meant::Review => has_members(value, &SIGNATURE),
        Meant::Approval => has_members(value, &SIGNATURE),
    }
}

#[tactic(auto, unfolding(crate::specs::Signatures::is_signature_body))]
fn is_signature_body(value: &Value) -> bool
    ensures { result ≡ is_signature_body (view value.now) }
{
    match meant_in(value) {
        Some(meant) => has_meant(value, meant),
        None => false,
    }
}

#[tactic(auto, using(lab_wire_members::proofs::ReadingLemmas::in_turn))]
fn signing(alloc: Global, value: &Value, meant: Meant) -> Result<Signing, BodyFault>
    ensures read { IfOk result (λ signing. signing_read meant (view value.now) ≡ Ok signing) }
    ensures fault { IfErr result (FaultyInTurn (signing_read meant (view value.now))) }
{
    match meant {
        Meant::Authorship => Ok(Signing::Authorship),
        Meant::Review => Ok(Signing::Review),
        Meant::Rejection => {
            let reason = named_if_at::<Notes>(alloc, value, "reason")?;
            Ok(Signing::Rejection(reason))
        }
        Meant::Approval => Ok(Signing::Approval),
    }
}

// Who signs, and as what, after what is signed.
#[tactic(auto, using(lab_wire_members::proofs::ReadingLemmas::in_turn))]
fn signature_by(
    alloc: Global,
    value: &Value,
    number: Ordinal,
    version: Ordinal,
    digest: Digest,
    meant: Meant,
) -> Result<Command, BodyFault>
    ensures read { IfOk result (λ command. signature_by number version digest meant
        (view value.now) ≡ Ok command) }
    ensures fault { IfErr result (FaultyInTurn (signature_by number version digest meant
        (view value.now))) }
{
    let password = typed_at(alloc, value, "password")?;
    let code = named_if_at::<PersonCodes>(alloc, value, "code")?;
    let signing = signing(alloc, value, meant)?;
    Ok(Command::In(SessionCommand::OnRecord(RecordCommand::Sign {
        number,
        version,
        digest,
        signing,
        password,
        code,
    })))
}

#[tactic(auto, using(lab_wire_members::proofs::ReadingLemmas::in_turn), unfolding(crate::specs::Signatures::signature_read))]
fn signature_read(alloc: Global, value: &Value) -> Result<Command, BodyFault>
    ensures read { IfOk result (λ command. signature_read (view value.now) ≡ Ok command) }
    ensures fault { IfErr result (FaultyInTurn (signature_read (view value.now))) }
{
    let number = wanted_member(ordinal_at(value, "record"))?;
    let version = wanted_member(ordinal_at(value, "version"))?;
    let digest = wanted_member(digest_at(value, "digest"))?;
    let meant = wanted_member(meant_in(value))?;
    signature_by(alloc, value, number, version, digest, meant)
}

/// Reads the command that signs a version of a record.
///
/// # Errors
/// The body is refused, or memory ran out.
#[tactic(auto, using(lab_wire_members::proofs::ReadingLemmas::in_turn), unfolding(crate::specs::Signatures::signature_named))]
pub fn signature(alloc: Global, value: &Value) -> Result<Command, BodyFault>
    ensures read { IfOk result (λ command. signature_named (view value.now) ≡ Ok command) }
    ensures fault { IfErr result (FaultyInTurn (signature_named (view value.now))) }
{
    if !is_signature_body(value) {
        return Err(BodyFault::Refused(BodyRefusal::BadBody));
    }
    signature_read(alloc, value)
}
