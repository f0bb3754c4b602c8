//! The parts of a target: path and query, and in a path the laboratory and the place in it.
ghost use Rattle.std.specs.Prelude.{◌≡◌, ◌∷◌, [], option_map, MatchOption};
ghost use Rattle.lab_wire.specs.Paths.{path_of, query_of, behind, lab_in, place_in, segments};

/// Returns the path of a target, which a query may follow.
pub fn path_of(target: &str) -> &str
    ensures { result.now ≡ path_of target.now }
{
    target.split_once('?').map_or(target, |(path, _)| path)
}

/// Returns the query of a target, or the empty text if the target has none.
pub fn query_of(target: &str) -> &str
    ensures { result.now ≡ query_of target.now }
{
    target.split_once('?').map_or("", |(_, query)| query)
}

/// Returns the text after a prefix.
#[tactic(auto, using(crate::proofs::PathLemmas::behind_is))]
pub fn behind<'t>(prefix: &str, text: &'t str) -> Option<&'t str>
    ensures { option_map (λ rest. rest.now) result ≡ behind prefix.now text.now }
{
    text.strip_prefix(prefix)
}

/// Returns the first segment: the laboratory's code, which follows the prefix of laboratories.
pub fn lab_in(rest: &str) -> &str
    ensures { result.now ≡ lab_in rest.now }
{
    rest.split_once('/').map_or(rest, |(lab, _)| lab)
}

/// Returns the place in the laboratory: what follows the first segment, from the slash on.
#[tactic(auto, using(crate::proofs::PathLemmas::place_behind))]
pub fn place_in(rest: &str) -> &str
    ensures { result.now ≡ place_in rest.now }
{
    match behind(lab_in(rest), rest) {
        Some(place) => place,
        None => "",
    }
}

/// Returns the first segment of a place, and the place after it.
pub fn next_segment(place: &str) -> Option<(&str, &str)>
    ensures { MatchOption result (segments place.now ≡ []) (λ found.
        segments place.now ≡ found.0.now ∷ segments found.1.now) }
{
    match place.split_once('/') {
        Some((_, rest)) => Some((lab_in(rest), place_in(rest))),
        None => None,
    }
}
