use crate::Moment;

/// What the outside world hands in with each request: the time, and random words. It isn't printed,
/// since tokens are made of the words.
#[derive(Clone, Copy)]
pub struct Tick {
    /// When the request came.
    pub moment: Moment,
    /// Eight words that nobody can foresee, of which tokens and salts are made.
    pub words: [u64; 8],
}
