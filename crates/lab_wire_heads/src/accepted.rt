//! What is kept of an accepted head: where its words stand, and what it says about the body. So the
//! head is read only once, and the request is found when its body has come.

ghost use Rattle.std.specs.Prelude.{◌≡◌, ◌≤◌, IfOk, IfErr};
ghost use Rattle.lab_wire_heads.specs.Accepted.{IsHeadAt, IsRequestAt, request_at};
ghost use Rattle.lab_wire_heads.specs.Lengths.{body_limit};
ghost use Rattle.lab_wire_heads.specs.Requests.{accepted_head, parts_shown};

use crate::expected::ExpectedBody;
use crate::interims::is_interim_due;
use crate::lengths::body_length;
use crate::refusals::HeadRefusal;
use crate::requests::{RequestParts, accept};
use crate::tokens::token_in;
use httparse::spans::Span;
use lab_seal_hashes::Token;

/// What is kept of an accepted head.
#[derive(Clone, Copy)]
pub struct AcceptedHead {
    /// Where the method stands in the bytes of the request.
    pub method: Span,
    /// Where the target stands there.
    pub target: Span,
    /// The token with which the request names its session, if it names one.
    pub token: Option<Token>,
    /// The number of bytes before the body, with the bytes that were skipped at the front.
    pub end: usize,
    /// What the head says about the body.
    pub body: ExpectedBody,
}

/// Reads the head of a request for a caller that reads the request piece by piece, and returns what
/// is kept of the head. Allocates no memory.
///
/// # Errors
/// The errors of `request_parts` that come before `ShortBody`.
#[tactic(auto, unfolding(crate::specs::Lengths::head_refusal))]
pub fn kept_head(bytes: &[u8]) -> Result<AcceptedHead, HeadRefusal>
    ensures accepted { IfOk result (IsHeadAt bytes.now) }
    ensures refused { IfErr result (λ refusal. accepted_head bytes.now ≡ Err refusal) }
    ensures limit { IfOk result (λ head. head.body.length ≤ body_limit) }
{
    match accept(bytes) {
        Ok(head) => Ok(AcceptedHead {
            method: head.method_span,
            target: head.target_span,
            token: token_in(&head),
            end: head.end,
            body: ExpectedBody {
                length: body_length(&head),
                is_interim_due: is_interim_due(&head),
            },
        }),
        Err(refusal) => Err(refusal),
    }
}

impl AcceptedHead {
    /// Returns the parts of the request in these bytes, which begin with this head and end with its
    /// body.
    pub fn parts_in<'b>(&self, bytes: &'b [u8]) -> RequestParts<'b>
        requires { IsRequestAt bytes.now self.now }
        ensures { parts_shown result ≡ request_at bytes.now self.now }
    {
        RequestParts {
            method: self.method.of(bytes),
            // (the target is UTF-8, by the precondition)
            target: str::from_utf8(self.target.of(bytes)).unwrap_or_default(),
            token: self.token,
            body: &bytes[self.end..],
        }
    }
}
