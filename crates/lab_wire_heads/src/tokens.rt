//! The token with which a request names its session.

ghost use Rattle.std.specs.Prelude.{◌≡◌, length, take, drop};
ghost use Rattle.std.specs.Str.{str_eq_ignore_ascii_case};
ghost use Rattle.lab_wire_heads.specs.Heads.{head_received, AreWithin};
ghost use Rattle.lab_wire_heads.specs.Tokens.{scheme, token_of, token_in};

use crate::fields::value_named;
use crate::heads::RequestHead;
use lab_seal_hashes::Token;

/// The authentication scheme, and one space.
const SCHEME: &[u8] = b"LabSession ";

#[tactic(auto, using(crate::proofs::ReadLemmas::take_within))]
fn has_scheme(value: &[u8]) -> bool
    ensures { result ≡ str_eq_ignore_ascii_case (take (length scheme) value.now) scheme }
{
    value[..value.len().min(SCHEME.len())].eq_ignore_ascii_case(SCHEME)
}

#[tactic(auto, using(crate::proofs::RequestLemmas::drop_within))]
fn behind_scheme(value: &[u8]) -> &[u8]
    ensures { result.now ≡ drop (length scheme) value.now }
{
    &value[value.len().min(SCHEME.len())..]
}

// The token that a field's value names: the scheme, in any case, and 64 lower hexadecimal digits.
#[tactic(auto, unfolding(crate::specs::Tokens::token_of))]
fn token_of(value: &[u8]) -> Option<Token>
    ensures { result ≡ token_of value.now }
{
    if !has_scheme(value) {
        return None;
    }
    Token::from_digits(behind_scheme(value))
}

/// Returns the token that a head names.
#[tactic(auto, unfolding(crate::specs::Tokens::token_in))]
pub(crate) fn token_in(head: &RequestHead<'_>) -> Option<Token>
    requires { AreWithin head.now }
    ensures { result ≡ token_in (head_received head.now).head.fields }
{
    match value_named(head, b"authorization") {
        Some(value) => token_of(value),
        None => None,
    }
}
