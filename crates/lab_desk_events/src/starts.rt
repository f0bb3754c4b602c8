//! The law of starts and stops. The function does nothing: its contract says the law.

ghost use Rattle.std.specs.Prelude.{◌++◌, ℕ, List, ◌∷◌};
ghost use Rattle.lab_records_keeper.specs.Worlds.{Meaning, SameMeaning};
ghost use Rattle.lab_records_laws.specs.Runs.{IsReleasing};
ghost use Rattle.lab_desk_events.specs.Keeping.{OfAll};
ghost use Rattle.lab_desk_events.specs.Runs.{Handled, after_run};
ghost use Rattle.lab_desk_events.specs.Starts.{AreMadeAt, AreMadeIn, AreStarts, IsAloneAt, IsAnswered, Start, left_by};

/// Law: if an installation is started and stopped several times, and each start finds what a crash
/// at the stop before it may have left, then each laboratory's answers and rows are those of its
/// own small machine, run over its own events alone, as if it had never stopped. At each start the
/// laboratory answers from the state to which its events of all earlier starts have brought it
/// (`answers`), and the last stop leaves it in such a state (`rows`). Its events are those that
/// were taken and, at each stop, at most one that the store refused but whose commit was done all
/// the same; events that were taken after that one have changed nothing, so no crash loses a taken
/// event. `alone` says both for all starts together. Signatures stay bound and under dual control
/// (`releasing`), whatever a crash left. `Desk::run` promises what each start answers and leaves.
pub fn a_stop_and_a_start_go_on()
    ensures answers { (first : Meaning) (before : List Start) (one : Start) (after : List Start) →
        AreStarts first (before ++ one ∷ after) → (made : List Handled)
        × AreMadeIn before made × IsAnswered (after_run first made) one }
    ensures rows { (first : Meaning) (starts : List Start) → AreStarts first starts →
        (made : List Handled) × AreMadeIn starts made
        × SameMeaning (after_run first made) (left_by first starts) }
    ensures alone { (first : Meaning) (starts : List Start) → AreStarts first starts →
        (made : List (List Handled)) × AreMadeAt starts made
        × ((code : List ℕ) → IsAloneAt first starts made code) }
    ensures releasing { (first : Meaning) (starts : List Start) → AreStarts first starts →
        OfAll IsReleasing first → OfAll IsReleasing (left_by first starts) }
{}
