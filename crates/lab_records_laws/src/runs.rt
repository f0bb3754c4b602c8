//! The law of all requests to a laboratory.
ghost use Rattle.std.specs.Prelude.{◌≡◌, ℕ, List, Some, None, Ok};
ghost use Rattle.lab_forms_texts.specs.declared.tick.Tick.{Tick};
ghost use Rattle.lab_records_kept.specs.declared.labs.Lab.{Lab};
ghost use Rattle.lab_records_kept.specs.Limits.{IsWithin};
ghost use Rattle.lab_records_machine.specs.declared.births.Founding.{Founding};
ghost use Rattle.lab_records_machine.specs.Births.{born};
ghost use Rattle.lab_records_laws.specs.Stepping.{HoldsOf};
ghost use Rattle.lab_records_laws.specs.Runs.{Asked, after_all, AreAskedRightly, IsReleasing};

/// Law: whatever is asked of a laboratory after its founding, by whomever and when, its signatures
/// are bound and under dual control, and every released version has a signature of authorship and
/// one of review, by different persons, over the digest of its present text, and one of a third
/// person if its form wants an approval. If no form in the requests has more fields than it may
/// have, the laboratory is within its limits too.
pub fn a_run_is_right()
    ensures released { (code : List ℕ) (tick : Tick) (founding : Founding) (lab : Lab)
        → born None code tick founding ≡ Ok lab
        → (asked : List Asked) → HoldsOf IsReleasing (after_all (Some lab) asked) }
    ensures within { (code : List ℕ) (tick : Tick) (founding : Founding) (lab : Lab)
        → born None code tick founding ≡ Ok lab
        → (asked : List Asked) → AreAskedRightly asked
        → HoldsOf IsWithin (after_all (Some lab) asked) }
{}
