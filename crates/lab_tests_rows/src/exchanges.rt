//! What is asked of a desk, and its reply.
use lab_forms_texts::{Moment, MomentFault, Tick};

/// A request, and the reply that it has to get.
pub struct Exchange {
    /// The second in which it comes.
    pub seconds: i64,
    /// The first of its eight random words.
    pub first: u32,
    /// Its bytes.
    pub request: &'static [u8],
    /// The bytes of its reply.
    pub reply: &'static [u8],
}

/// The hundredth second.
///
/// # Errors
/// None: there is that moment.
pub fn moment() -> Result<Moment, MomentFault> {
    Moment::from_seconds(100)
}

/// Eight words, of which each is one more than that before it.
pub fn words(first: u32) -> [u64; 8] {
    let first = u64::from(first);
    [
        first,
        first + 1,
        first + 2,
        first + 3,
        first + 4,
        first + 5,
        first + 6,
        first + 7,
    ]
}

/// When it comes, and its words.
///
/// # Errors
/// Those of a second that is no moment.
pub fn tick(exchange: &Exchange) -> Result<Tick, MomentFault> {
    Ok(Tick {
        moment: Moment::from_seconds(exchange.seconds)?,
        words: words(exchange.first),
    })
}
