//! The body that follows a head, for a caller that reads a request piece by piece.

/// The body that follows an accepted head.
#[derive(Clone, Copy, Debug, PartialEq, Eq)]
pub struct ExpectedBody {
    /// The number of its bytes.
    pub length: usize,
    /// Whether the client may wait for an interim answer before it sends the body.
    pub is_interim_due: bool,
}
