//! What the definitions state about copies in the replies of a laboratory.
ghost use Rattle.lab_records_laws.specs.Inspections.{HandsOutSoundCopies};

/// Law: if a laboratory that is bound, under dual control and within its limits replies with a
/// copy, the copy is sound, and its end row states how many rows of each kind the records of the
/// range have.
#[tactic(auto, using(crate::proofs::InspectionLemmas::hands_out_sound_copies))]
pub fn a_copy_handed_out_is_sound()
    ensures { HandsOutSoundCopies }
{}
