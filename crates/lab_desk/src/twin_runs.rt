//! The law of two runs. The function does nothing: its contract says the law.

ghost use Rattle.std.specs.Prelude.{◌≡◌, ℕ, List, Bool};
ghost use Rattle.lab_records_keeper.specs.Worlds.{Meaning};
ghost use Rattle.lab_desk_events.specs.Alone.{Happening};
ghost use Rattle.lab_desk_events.specs.Runs.{Handled, IsAccountOf, AreAlone, own_events, own_answers, after_run};
ghost use Rattle.lab_desk.specs.Twins.{Agree};

/// Law: if two runs agree on a laboratory at their starts, and the same events of this laboratory
/// were taken in both, then they give it the same answers, byte for byte, and agree on it at their
/// ends (`answers`, `after`), whatever else they hold and whatever events of others come between.
/// If the runs have the same events, and the same of them were taken, then the laboratory's own
/// events are the same (`own`). `Desk::run` promises that each laboratory's answers are those of
/// its run alone.
pub fn equal_events_get_equal_answers()
    ensures answers { (start other_start : Meaning) (handled others : List Handled)
        (code : List ℕ) → AreAlone start handled → AreAlone other_start others →
        Agree start other_start code → own_events code handled ≡ own_events code others →
        own_answers code handled ≡ own_answers code others }
    ensures after { (start other_start : Meaning) (handled others : List Handled)
        (code : List ℕ) →
        Agree start other_start code → own_events code handled ≡ own_events code others →
        Agree (after_run start handled) (after_run other_start others) code }
    ensures own { (events : List Happening) (taken : List Bool) (handled others : List Handled)
        (code : List ℕ) → IsAccountOf events taken handled → IsAccountOf events taken others →
        own_events code handled ≡ own_events code others }
{}
