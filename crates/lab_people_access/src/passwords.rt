//! What is kept of a person's password.
ghost use Rattle.std.specs.Prelude.{◌≡◌, ◌≤◌, true, false};
ghost use Rattle.lab_people_access.specs.Passwords.{is_password, are_rounds, chosen_password, are_verified, accepts, is_set, is_due};

use crate::times::{days_since, seconds_since};
use lab_forms_texts::Moment;
use lab_seal_hashes::Verifier;

/// The rounds of PBKDF2 for every new verifier.
pub const ROUNDS: u32 = 100_000;

/// The rounds of older verifiers. An old verifier keeps its rounds, and is checked with them.
pub const OLD_ROUNDS: u32 = 10_000;

/// The fewest bytes of a new password.
pub const PASSWORD_LEAST: usize = 12;

/// The most bytes of a new password.
pub const PASSWORD_LIMIT: usize = 128;

/// The most days after the day of its choice on which a password isn't due yet.
pub const DAYS_OF_PASSWORD: u64 = 90;

/// The most seconds after its confirmation at which a one-time word is accepted.
pub const SECONDS_OF_ONE_TIME_WORD: u64 = 604_800;

/// The length of a written half of a one-time word, in bytes.
pub const HALF_LEN: usize = 32;

/// Whether a verifier may have this number of rounds: that of new verifiers or that of older ones.
pub fn are_rounds(rounds: u32) -> bool
    ensures value { result ≡ are_rounds rounds }
    ensures some { result ≡ true → 1 ≤ rounds }
{
    rounds == ROUNDS || rounds == OLD_ROUNDS
}

/// What is kept of a person's password. It isn't printable.
#[derive(Clone, Copy)]
pub enum Password {
    /// The person never had a password.
    Unset,
    /// The person chose the password.
    Chosen {
        /// The verifier that checks the password.
        verifier: Verifier,
        /// When the password was chosen.
        changed: Moment,
    },
    /// A one-time word of two halves, each given to another administrator. It opens sessions for
    /// seven days, and in such a session a new password must be chosen before anything else.
    OneTime {
        /// The verifier that checks the first half.
        first: Verifier,
        /// The verifier that checks the second half.
        second: Verifier,
        /// When the second administrator confirmed the one-time word.
        confirmed: Moment,
    },
}

impl Password {
    /// Whether the text may be chosen as a password: it has 12 to 128 bytes.
    pub fn admits(text: &str) -> bool
        ensures { result ≡ is_password text.now }
    {
        let length = text.len();
        PASSWORD_LEAST <= length && length <= PASSWORD_LIMIT
    }

    /// Makes the password that is chosen at the moment, with the salt. The caller has to check
    /// first whether the text may be chosen.
    pub fn choose(text: &str, salt: [u8; 16], moment: Moment) -> Password
        ensures { result ≡ chosen_password text.now salt moment }
    {
        Password::Chosen {
            verifier: Verifier::make(text.as_bytes(), salt, ROUNDS),
            changed: moment,
        }
    }

    /// Whether the text is the password at the moment. If it isn't, the call has run as many rounds
    /// as a new verifier has.
    #[tactic(auto, unfolding(crate::specs::Passwords::accepts))]
    pub fn accepts(&self, text: &str, moment: Moment) -> bool
        ensures { result ≡ accepts self.now text.now moment }
    {
        let text = text.as_bytes();
        match self {
            Password::Unset => fails(text, 0),
            Password::Chosen { verifier, .. } => {
                verifier.accepts(text) || fails(text, verifier.parts().rounds)
            }
            Password::OneTime {
                first,
                second,
                confirmed,
            } => {
                if seconds_since(*confirmed, moment) > SECONDS_OF_ONE_TIME_WORD {
                    return fails(text, 0);
                }
                are_verified_by(first, second, text)
            }
        }
    }

    /// Whether there is a password.
    pub fn is_set(&self) -> bool
        ensures { result ≡ is_set self.now }
    {
        !matches!(self, Password::Unset)
    }

    /// Whether the password is due to be changed at the moment. A person without a password counts
    /// as due.
    pub fn is_due(&self, moment: Moment) -> bool
        ensures { result ≡ is_due self.now moment }
    {
        match self {
            Password::Chosen { changed, .. } => days_since(*changed, moment) > DAYS_OF_PASSWORD,
            Password::Unset | Password::OneTime { .. } => true,
        }
    }
}

// Whether the text has 64 bytes, and each verifier accepts its half.
fn are_verified_by(first: &Verifier, second: &Verifier, text: &[u8]) -> bool
    ensures { result ≡ are_verified first.now second.now text.now }
{
    if text.len() != 2 * HALF_LEN {
        return fails(text, 0);
    }
    let (first_half, second_half) = text.split_at(HALF_LEN);
    if !first.accepts(first_half) {
        return fails(text, first.parts().rounds);
    }
    second.accepts(second_half) || fails(text, second.parts().rounds)
}

/// Returns `false` after the rounds of a new verifier, of which `run` rounds were already run. So
/// the time of a refusal doesn't show whose password is kept, nor how.
pub(crate) fn fails(text: &[u8], run: u32) -> bool
    ensures { result ≡ false }
{
    if run < ROUNDS {
        Verifier::make(text, [0; 16], ROUNDS - run);
    }
    false
}
