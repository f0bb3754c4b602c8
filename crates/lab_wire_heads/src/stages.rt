//! How much of a head has come, so that its end is seen at its last byte, and each byte is read
//! only once.

ghost use Rattle.std.specs.Prelude.{◌≡◌};
ghost use Rattle.lab_wire_heads.specs.Private.Stages.{stage_after, has_ended};

/// How much of a head has come.
#[derive(Clone, Copy, Debug, PartialEq, Eq)]
pub(crate) enum HeadStage {
    /// Only CR and LF have come.
    Front,
    /// A line begins.
    Empty,
    /// The line so far is only CR.
    Return,
    /// The line so far is something else.
    Line,
    /// The empty line has come.
    Ended,
}

impl HeadStage {
    /// Returns the stage after one more byte.
    pub(crate) fn after(self, byte: u8) -> HeadStage
        ensures { result ≡ stage_after self byte }
    {
        match self {
            HeadStage::Front if byte == b'\r' || byte == b'\n' => HeadStage::Front,
            HeadStage::Empty | HeadStage::Return if byte == b'\n' => HeadStage::Ended,
            HeadStage::Empty if byte == b'\r' => HeadStage::Return,
            HeadStage::Line if byte == b'\n' => HeadStage::Empty,
            HeadStage::Ended => HeadStage::Ended,
            _ => HeadStage::Line,
        }
    }

    /// Returns whether the whole head has come.
    pub(crate) fn has_ended(self) -> bool
        ensures { result ≡ has_ended self }
    {
        matches!(self, HeadStage::Ended)
    }
}
