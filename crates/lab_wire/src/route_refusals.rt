//! Why an accepted request is refused, and the methods that a refusal lists. Each refusal has a
//! number and a word, with which the interface reports it.
ghost use Rattle.std.specs.Prelude.{◌≡◌};
ghost use Rattle.lab_wire.specs.RouteRefusals.{allowed_text, route_entry};

use lab_forms_texts::{Fault, RefusalKind};
use lab_wire_members::BodyRefusal;
use std::fmt;
use thiserror::Error;

/// The methods that a place has commands for.
#[derive(Clone, Copy, Debug, PartialEq, Eq)]
pub enum Allowed {
    /// The place can only be read.
    Get,
    /// The place can only be posted to.
    Post,
    /// The place can be read and posted to.
    GetOrPost,
}

impl Allowed {
    /// Returns the methods, as a list.
    pub fn text(&self) -> &'static str
        ensures { result.now ≡ allowed_text self.now }
    {
        match self {
            Allowed::Get => "GET",
            Allowed::Post => "POST",
            Allowed::GetOrPost => "GET, POST",
        }
    }
}

/// Why a request asks nothing of a laboratory. A refusal is printed as its word.
#[derive(Clone, Copy, Debug, PartialEq, Eq, Error)]
pub enum RouteRefusal {
    /// No such place exists.
    NoRoute,
    /// The place has only other methods.
    Method(Allowed),
    /// The query or the body isn't what the command needs.
    Body(BodyRefusal),
}

impl RefusalKind for RouteRefusal {
    ghost listed = { route_entry };

    fn entry(&self) -> (u32, &'static str) {
        match self {
            RouteRefusal::NoRoute => (86, "no_route"),
            RouteRefusal::Method(_) => (87, "method"),
            RouteRefusal::Body(refusal) => refusal.entry(),
        }
    }
}

impl fmt::Display for RouteRefusal {
    ghost use Rattle.std.specs.Prelude.{Some};
    ghost use Rattle.lab_wire.specs.RouteRefusals.{route_entry};

    ghost output = { λ refusal. Some (route_entry refusal).word };

    fn fmt<W: fmt::Write>(&self, f: &mut fmt::Formatter<W>) -> fmt::Result {
        f.write_str(self.word())
    }
}

/// Why it wasn't found what a request asks.
pub type RouteFault = Fault<RouteRefusal>;
