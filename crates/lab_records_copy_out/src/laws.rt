//! What the definitions state about laboratories whose copies are written.
ghost use Rattle.lab_records_copy_out.specs.Legible.{AllGiveSoundCopies};
ghost use Rattle.lab_records_copy_out.specs.CopyTexts.{AllCanBeWalked};

/// Law: a laboratory within its limits and under dual control can be walked.
#[tactic(auto, using(crate::proofs::LimitLemmas::all_can_be_walked))]
pub fn a_laboratory_can_be_walked()
    ensures { AllCanBeWalked }
{}

/// Law: the copies of a laboratory within its limits, bound, under dual control and legible are
/// sound.
#[tactic(auto, using(crate::proofs::LegibleLemmas::all_give_sound_copies))]
pub fn a_legible_laboratory_gives_sound_copies()
    ensures { AllGiveSoundCopies }
{}
