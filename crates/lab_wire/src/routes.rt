//! Where a request goes, by its method and its path: a table with each place in a laboratory, and
//! the router of this table.
ghost use Rattle.std.specs.Prelude.{◌≡◌, ◌<◌, length, option_map, map, Some, Ok, Err, IfSome, IfOk, IfErr};
ghost use Rattle.matchit.specs.Seek.{first};
ghost use Rattle.matchit.specs.declared.error.InsertError.TheVariants.{OutOfMemory as MemoryRanOut};
ghost use Rattle.lab_wire.specs.Paths.{place_in, segments};
ghost use Rattle.lab_wire.specs.Aims.{no_parts, parts_from};
ghost use Rattle.lab_wire.specs.Routes.{route_of, aim_by, destination_shown, destination_of};
ghost use Rattle.lab_wire.specs.Private.Places.{place_shown, place_at, places, asked_by, allowed_at, place_to, route_or_methods};
ghost use Rattle.lab_wire.specs.Places.{texts};
ghost use Rattle.lab_wire.specs.Private.Router.{text_at};
ghost use Rattle.lab_wire.specs.Router.{router_of_table};

use crate::aims::{Admitted, Aim, Parts, aim_of, parts_by};
use crate::paths::{behind, lab_in, path_of, place_in, query_of};
use crate::route_refusals::{Allowed, RouteRefusal};
use http::Method;
use lab_forms_texts::{LabCodes, OutOfMemory};
use lab_wire_bodies::Post;
use matchit::{InsertError, Router};
use std::alloc::Global;
use std::marker::Model;

/// What a request asks of a laboratory, by its method and its place.
#[derive(Clone, Copy, Debug, PartialEq, Eq, Drop)]
pub enum Route {
    /// Its card.
    Card,
    /// Its persons.
    Persons,
    /// A version of a form.
    Form,
    /// A record.
    Record,
    /// A version of a record.
    Version,
    /// Records from a number to a number.
    Records,
    /// Rows of the trail from a number to a number.
    Trail,
    /// A copy of records from a number to a number.
    Copy,
    /// What a body names.
    Posted(Post),
}

/// A place in a laboratory. In its text `{form}` stands for a key, `{record}` and `{version}` for a
/// number.
#[derive(Clone, Copy, Drop)]
pub struct Place {
    /// The place, as the table writes it.
    pub text: &'static str,
    /// What a GET of the place reads.
    pub get: Option<Route>,
    /// What a POST to the place does.
    pub post: Option<Route>,
}

/// Where a request goes.
#[derive(Drop)]
pub struct Destination<'t> {
    /// The laboratory's code.
    pub lab: Admitted<'t, LabCodes>,
    /// The query, as written.
    pub query: &'t str,
    /// What the request asks there.
    pub aim: Aim<'t>,
}

// A place that can only be read.
macro_rules! gets {
    ($text:literal, $route:ident) => {
        Place {
            text: $text,
            get: Some(Route::$route),
            post: None,
        }
    };
}

// A place that can only be posted to.
macro_rules! posts {
    ($text:literal, $post:ident) => {
        Place {
            text: $text,
            get: None,
            post: Some(Route::Posted(Post::$post)),
        }
    };
}

// A place that can be read and posted to.
macro_rules! both {
    ($text:literal, $route:ident, $post:ident) => {
        Place {
            text: $text,
            get: Some(Route::$route),
            post: Some(Route::Posted(Post::$post)),
        }
    };
}

/// The start of the paths of laboratories.
const LABS_PREFIX: &str = "/labs/";

/// The places of the table, each once.
const PLACES: [Place; 20] = [
    gets!("", Card),
    posts!("/open", Open),
    posts!("/close", Close),
    posts!("/password", ChangePassword),
    both!("/persons", Persons, Enrol),
    posts!("/issue", AskIssue),
    posts!("/confirm", ConfirmIssue),
    posts!("/roles", SetRoles),
    posts!("/retire", Retire),
    posts!("/unlock", Unlock),
    posts!("/forms", MakeForm),
    gets!("/forms/{form}/{version}", Form),
    posts!("/entries", Enter),
    posts!("/amendments", Amend),
    posts!("/signatures", Sign),
    gets!("/records/{record}", Record),
    gets!("/records/{record}/versions/{version}", Version),
    both!("/records", Records, OpenRecord),
    gets!("/trail", Trail),
    gets!("/copy", Copy),
];

// The places of the table, each once.
fn places() -> &'static [Place]
    ensures shown { map place_shown result.now ≡ places }
    ensures count { length result.now ≡ length texts }
{
    &PLACES
}

// The place of a number.
fn place_of_number(number: usize) -> Place
    requires { number < length texts }
    ensures { place_shown result ≡ place_at (text_at number) }
{
    let table = places();
    table[number]
}

// Why a place of the table can't be added to a router: only memory, since its text is good and it
// conflicts with no other.
fn memory_alone(fault: InsertError) -> OutOfMemory
    requires { fault ≡ MemoryRanOut }
{
    match fault {
        InsertError::OutOfMemory => OutOfMemory,
        _ => unreachable!(),
    }
}

impl Place {
    // What the method with a name asks.
    fn route_named(&self, name: &str) -> Option<Route>
        ensures { result ≡ asked_by name.now (place_shown self.now) }
    {
        if "GET" == name {
            self.get
        } else if "POST" == name {
            self.post
        } else {
            None
        }
    }

    // What a method asks. Only a method of more than 15 bytes needs memory. If memory runs out, the
    // method isn't read, and no place has such a method.
    fn by(&self, alloc: Global, method: &[u8]) -> Option<Route>
        ensures { result ≡ asked_by method.now (place_shown self.now) }
    {
        match Method::from_bytes(alloc, method) {
            Ok(method) => self.route_named(method.as_str()),
            Err(_) => None,
        }
    }

    // The route of a method, which must be one of the place's own.
    fn route_by(&self, alloc: Global, method: &[u8]) -> Result<Route, RouteRefusal>
        ensures { result ≡ route_or_methods (asked_by method.now (place_shown self.now))
            (allowed_at (place_shown self.now)) }
    {
        match self.by(alloc, method) {
            Some(route) => Ok(route),
            None => Err(RouteRefusal::Method(self.allowed_methods())),
        }
    }

    // The methods that the place has.
    fn allowed_methods(&self) -> Allowed
        ensures { result ≡ allowed_at (place_shown self.now) }
    {
        match (self.get, self.post) {
            (Some(_), Some(_)) => Allowed::GetOrPost,
            (Some(_), None) => Allowed::Get,
            (None, _) => Allowed::Post,
        }
    }
}

/// The routes of a laboratory: each place of the table, found by its words.
#[derive(Drop)]
pub struct Routes {
    alloc: Global,
    // A router to the number of each place in the table.
    router: Router<usize>,
}

impl Model for Routes {
    ghost use Rattle.std.specs.Prelude.{◌≡◌, ⊤};
    ghost use Rattle.lab_wire.specs.Router.{router_of_table};

    ghost Value = { ⊤ };

    ghost view = { λ _. tt };

    ghost invariant = { λ routes. routes.router ≡ router_of_table };
}

impl Routes {
    /// Returns the routes of the table.
    ///
    /// # Errors
    /// Memory ran out.
    pub fn new(alloc: Global) -> Result<Routes, OutOfMemory> {
        let table = places();
        let mut router = Router::new(alloc);
        let mut number = 0;
        while number < table.len() {
            match router.insert(table[number].text, number) {
                Ok(()) => number += 1,
                Err(fault) => return Err(memory_alone(fault)),
            }
        }
        Ok(Routes { alloc, router })
    }

    // The number of the place that the router finds, by its words only.
    fn number_of(&self, place: &str) -> Option<usize>
        ensures { result ≡ option_map (λ found. found.value) (first router_of_table place.now) }
    {
        match self.router.at(place) {
            Ok(found) => Some(*found.value),
            Err(_) => None,
        }
    }

    // The place of the table for what follows a laboratory's code, and the parameters of the path.
    // The router finds the place by its words; then each segment is read, and must be admitted.
    fn place_to<'t>(&self, rest: &'t str) -> Option<(Place, Parts<'t>)>
        ensures place { option_map (λ found. place_shown found.0) result
            ≡ place_to (place_in rest.now) }
        ensures parts { IfSome result (λ found. parts_from no_parts
            (segments found.0.text.now) (segments (place_in rest.now)) ≡ Some found.1) }
    {
        let place = place_in(rest);
        let number = self.number_of(place)?;
        let near = place_of_number(number);
        let parts = parts_by(near.text, place)?;
        Some((near, parts))
    }

    // What a method asks at the place after a laboratory's code: first the place must exist, then
    // the method must be one of its own.
    fn aim_by<'t>(&self, method: &[u8], rest: &'t str) -> Result<Aim<'t>, RouteRefusal>
        ensures { result ≡ aim_by (place_in rest.now) (route_of method.now (place_in rest.now)) }
    {
        let Some((near, parts)) = self.place_to(rest) else {
            return Err(RouteRefusal::NoRoute);
        };
        match near.route_by(self.alloc, method) {
            Ok(route) => aim_of(route, parts).ok_or(RouteRefusal::NoRoute),
            Err(refusal) => Err(refusal),
        }
    }

    /// Returns where a method and a target go.
    ///
    /// # Errors
    /// - `NoRoute` if the laboratory code in the path is malformed, or the path isn't a place in a
    ///   laboratory;
    /// - otherwise `Method` if the place has only other methods.
    #[tactic(auto, unfolding(crate::specs::Routes::destination_of))]
    pub fn destination_of<'t>(
        &self,
        method: &[u8],
        target: &'t str,
    ) -> Result<Destination<'t>, RouteRefusal>
        ensures found { IfOk result (λ to.
            destination_of method.now target.now ≡ Ok (destination_shown to)) }
        ensures refused { IfErr result (λ refusal.
            destination_of method.now target.now ≡ Err refusal) }
    {
        let Some(rest) = behind(LABS_PREFIX, path_of(target)) else {
            return Err(RouteRefusal::NoRoute);
        };
        let Some(lab) = Admitted::of(lab_in(rest)) else {
            return Err(RouteRefusal::NoRoute);
        };
        match self.aim_by(method, rest) {
            Ok(aim) => Ok(Destination {
                lab,
                query: query_of(target),
                aim,
            }),
            Err(refusal) => Err(refusal),
        }
    }
}
