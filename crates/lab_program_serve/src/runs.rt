//! The law of what is served between two openings. The function does nothing: its contract says the law.
ghost use Rattle.std.specs.Prelude.{ℕ, List};
ghost use Rattle.lab_desk_events.specs.Keeping.{GivenWithin};
ghost use Rattle.lab_program_serve.specs.Runs.{IsServedRun};
ghost use Rattle.lab_program_serve.specs.Visits.{AreVisits, GoesOn, Visit};

use lab_desk::Keeper;

/// Law: what a server did over a keeper, from its opening until it was given up, is a run, as the
/// one of `Desk::run`. Its events are the requests that were handled, in the order of the
/// connections. Each laboratory's replies, byte for byte, and what the keeper means by it in the
/// end are those of its own small machine, run over its own taken requests alone (`run`). A crash
/// at the end leaves what they made, and beside it at most one that the store refused (`leaves`),
/// also where the last request shut the keeper.
pub fn what_is_served_is_a_run<S: Keeper>()
    ensures { (reply : List ℕ) (old new : S) (visits : List Visit)
        → AreVisits S.Keeper (GoesOn S.Keeper) reply old visits new
        → GivenWithin (S.world old) (S.world new)
        (IsServedRun (S.world old) (S.world new) visits) }
{}
