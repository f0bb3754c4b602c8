//! What users rely on, stated about the definitions. Each function does nothing: its contract
//! states the law, for all laboratories.
ghost use Rattle.lab_records_kept.specs.declared.labs.Lab.{Lab as AnyLab};
ghost use Rattle.lab_records_kept.specs.Bound.{IsBound};
ghost use Rattle.lab_records_kept.specs.Dual.{IsDual, AreReleasedRightly};

/// Law: if the signatures of a laboratory are bound and under dual control, every released version
/// has a signature of authorship and one of review, by different persons, over the digest of its
/// present text; the author entered a row of the version, and the reviewer entered none. If its
/// form wants an approval, the version has one by a third person, who entered no row either.
pub fn what_is_released()
    ensures { (lab : AnyLab) → IsBound lab → IsDual lab → AreReleasedRightly lab }
{}
