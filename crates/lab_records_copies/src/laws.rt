//! What the definitions state about the copies of a laboratory.
ghost use Rattle.lab_records_copies.specs.Soundness.{CopiesAreSound};

/// Law: the copy of a laboratory that is bound, under dual control and within its limits is sound,
/// and has the number of rows of each kind that its records have.
#[tactic(auto, using(crate::proofs::CopyLemmas::copies_are_sound))]
pub fn a_copy_is_sound()
    ensures { CopiesAreSound }
{}
