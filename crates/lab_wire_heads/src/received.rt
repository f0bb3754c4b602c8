//! A request that was received: its bytes, and what is kept of its head, so that the head isn't
//! read again.

ghost use Rattle.std.specs.Prelude.{◌≡◌, Ok};
ghost use Rattle.lab_wire_heads.specs.Accepted.{IsRequestAt};
ghost use Rattle.lab_wire_heads.specs.Requests.{parts_shown, request_in};

use crate::{AcceptedHead, RequestParts};
use lab_forms_texts::Series;
use std::marker::Model;

/// A request that was received, head and body. Callers see its bytes.
#[derive(Drop)]
pub struct Received {
    bytes: Series<u8>,
    head: AcceptedHead,
}

impl Model for Received {
    ghost use Rattle.std.specs.Prelude.{ℕ, List};
    ghost use Rattle.lab_wire_heads.specs.Accepted.{IsRequestAt};

    ghost Value = { List ℕ };

    ghost view = { λ received. received.bytes };

    ghost invariant = { λ received. IsRequestAt received.bytes received.head };
}

impl Received {
    /// Returns the request that consists of these bytes, with what is kept of its head.
    pub(crate) fn new(bytes: Series<u8>, head: AcceptedHead) -> Received
        requires { IsRequestAt bytes head }
        ensures { result ≡ bytes }
    {
        Received { bytes, head }
    }

    /// Returns the parts of the request that are read; they borrow its bytes.
    pub fn parts(&self) -> RequestParts<'_>
        ensures { request_in self.now ≡ Ok (parts_shown result) }
    {
        self.head.parts_in(self.bytes.as_slice())
    }
}
