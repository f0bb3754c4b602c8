//! Whether a record is under dual control.

ghost use Rattle.std.specs.Prelude.{◌≡◌, true};
ghost use Rattle.std.specs.List.{list_all};
ghost use Rattle.lab_move_tables.specs.Private.Tests.{says_of_approval, entered_none, third_differs, are_signers, is_signed_dually, is_settled, are_settled_after, is_dual_record};

use lab_records_kept::{Record, Signature, State, Version};
use lab_seal_versions::Format;

// Whether the text of a version says of an approval what its form does.
fn says_of_approval(format: Format, approval: bool) -> bool
    ensures { result ≡ says_of_approval format approval }
{
    match format {
        Format::One => !approval,
        Format::Two { approval: said } => said == approval,
    }
}

// Whether none of those who signed entered a row of the version.
fn all_entered_none(version: &Version, later: &[Signature]) -> bool
    ensures { result ≡ list_all (entered_none version.now) later.now }
{
    later.iter().all(|one| !version.has_entered(&one.person))
}

// Whether the second of those who signed later isn't the first of them.
fn third_differs(later: &[Signature]) -> bool
    ensures { result ≡ third_differs later.now }
{
    match later {
        [second, third, ..] => third.person.as_str() != second.person.as_str(),
        _ => true,
    }
}

// Whether the first signer entered a row of the version, no later one did, and the third isn't the second.
fn are_signers(version: &Version, signatures: &[Signature]) -> bool
    ensures { result ≡ are_signers version.now signatures.now }
{
    match signatures {
        [] => true,
        [author, later @ ..] => {
            version.has_entered(&author.person)
                && all_entered_none(version, later)
                && third_differs(later)
        }
    }
}

// Whether the signatures of a version are those of a state, and are given by whom they may be.
fn is_signed_dually(kept: &Record, version: &Version) -> bool
    ensures { result ≡ is_signed_dually kept.now version.now }
{
    says_of_approval(version.format, kept.form.form.approval())
        && kept.state_of(version).is_some()
        && are_signers(version, version.signatures.as_slice())
}

// Whether a version is released or rejected.
fn is_settled(kept: &Record, version: &Version) -> bool
    ensures { result ≡ is_settled kept.now version.now }
{
    match kept.state_of(version) {
        Some(State::Released | State::Rejected) => true,
        Some(State::Open | State::Signed | State::Reviewed) | None => false,
    }
}

// Whether all versions but the last are.
fn are_settled(kept: &Record, versions: &[Version]) -> bool
    ensures { result ≡ are_settled_after kept.now true versions.now }
{
    let mut settled = true;
    for version in versions {
        if !settled {
            return false;
        }
        settled = is_settled(kept, version);
    }
    true
}

// Whether the signatures of all versions are those of states.
fn are_signed_dually(kept: &Record, versions: &[Version]) -> bool
    ensures { result ≡ list_all (is_signed_dually kept.now) versions.now }
{
    versions
        .iter()
        .all(|version| is_signed_dually(kept, version))
}

/// Whether the record is under dual control.
pub(crate) fn is_dual_record(kept: &Record) -> bool
    ensures { result ≡ is_dual_record kept.now }
{
    are_signed_dually(kept, kept.versions.as_slice()) && are_settled(kept, kept.versions.as_slice())
}
