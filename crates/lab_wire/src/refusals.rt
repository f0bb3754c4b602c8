//! What the wire refuses: bytes that aren't a request, and requests that ask nothing. Each refusal
//! has a number and a word, with which the interface reports it.
ghost use Rattle.lab_wire.specs.Refusals.{request_entry};

use crate::RouteRefusal;
use lab_forms_texts::{Fault, RefusalKind};
use lab_wire_heads::HeadRefusal;
use std::fmt;
use thiserror::Error;

/// Why bytes ask nothing of a laboratory. A refusal is printed as its word.
#[derive(Clone, Copy, Debug, PartialEq, Eq, Error)]
pub enum RequestRefusal {
    /// The bytes don't begin with a request that may be read.
    Head(HeadRefusal),
    /// The request asks nothing.
    Route(RouteRefusal),
}

impl RefusalKind for RequestRefusal {
    ghost listed = { request_entry };

    fn entry(&self) -> (u32, &'static str) {
        match self {
            RequestRefusal::Head(refusal) => refusal.entry(),
            RequestRefusal::Route(refusal) => refusal.entry(),
        }
    }
}

impl fmt::Display for RequestRefusal {
    ghost use Rattle.std.specs.Prelude.{Some};
    ghost use Rattle.lab_wire.specs.Refusals.{request_entry};

    ghost output = { λ refusal. Some (request_entry refusal).word };

    fn fmt<W: fmt::Write>(&self, f: &mut fmt::Formatter<W>) -> fmt::Result {
        f.write_str(self.word())
    }
}

/// Why it wasn't read what bytes ask.
pub type RequestFault = Fault<RequestRefusal>;
