//! The states of a version, which its signatures make.
ghost use Rattle.std.specs.Prelude.{◌≡◌};
ghost use Rattle.lab_seal_versions.specs.States.{state_word, is_settled, state_of};

use crate::Meaning;

/// The state of a version.
#[derive(Clone, Copy, Debug, PartialEq, Eq)]
pub enum State {
    /// Nobody has signed the version, and rows may be entered.
    Open,
    /// The author has signed the version.
    Signed,
    /// A second person has reviewed the version, and an approval is wanted.
    Reviewed,
    /// The version has all signatures that are wanted.
    Released,
    /// The last signature of the version rejects it.
    Rejected,
}

impl State {
    /// The word of the state.
    pub fn word(&self) -> &'static str
        ensures { result.now ≡ state_word self.now }
    {
        match self {
            State::Open => "open",
            State::Signed => "signed",
            State::Reviewed => "reviewed",
            State::Released => "released",
            State::Rejected => "rejected",
        }
    }

    /// Whether the version is released or rejected.
    pub fn is_settled(&self) -> bool
        ensures { result ≡ is_settled self.now }
    {
        match self {
            State::Released | State::Rejected => true,
            State::Open | State::Signed | State::Reviewed => false,
        }
    }
}

/// Returns the state of a version with these signatures, in order; `None` if no version has such
/// signatures.
pub fn state_of(meanings: &[Meaning], approval: bool) -> Option<State>
    ensures { result ≡ state_of meanings.now approval }
{
    match (meanings, approval) {
        ([], _) => Some(State::Open),
        ([Meaning::Authorship], _) => Some(State::Signed),
        ([Meaning::Authorship, Meaning::Review], false) => Some(State::Released),
        ([Meaning::Authorship, Meaning::Review], true) => Some(State::Reviewed),
        ([Meaning::Authorship, Meaning::Rejection(_)], _) => Some(State::Rejected),
        ([Meaning::Authorship, Meaning::Review, Meaning::Approval], true) => Some(State::Released),
        ([Meaning::Authorship, Meaning::Review, Meaning::Rejection(_)], true) => {
            Some(State::Rejected)
        }
        _ => None,
    }
}
