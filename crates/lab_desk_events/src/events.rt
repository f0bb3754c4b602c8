//! What happens to an installation: foundings and requests, in order.

ghost use Rattle.std.specs.Prelude.{◌≡◌, IfOk};

use lab_forms_texts::{LabCode, OutOfMemory, Series, Tick};
use std::alloc::AllocError;

/// One event of an installation. It isn't printed, because it holds passwords, tokens, and the
/// words from which tokens are made.
pub enum Event {
    /// A laboratory is to be founded.
    Found {
        /// The laboratory's code.
        lab: LabCode,
        /// The moment, and random words.
        tick: Tick,
        /// The founding body, JSON.
        body: Series<u8>,
    },
    /// A request came in.
    Call {
        /// The moment, and random words.
        tick: Tick,
        /// The bytes of the request.
        bytes: Series<u8>,
    },
}

// `drop` is written out, so that a caller doesn't prove again how each part is dropped.
impl Drop for Event {
    fn drop(self) {
        match self {
            Event::Found {
                lab: _,
                tick: _,
                body: _,
            } => {}
            Event::Call { tick: _, bytes: _ } => {}
        }
    }
}

impl Event {
    /// Returns a copy.
    ///
    /// # Errors
    /// Memory ran out.
    pub fn copy(&self) -> Result<Event, OutOfMemory>
        ensures { IfOk result (λ copy. copy ≡ self.now) }
    {
        Ok(self.clone()?)
    }
}

impl Clone for Event {
    ghost use Rattle.std.specs.Prelude.{◌≡◌};

    ghost is_clone = { λ event copy. copy ≡ event };

    fn clone(&self) -> Result<Event, AllocError> {
        match self {
            Event::Found { lab, tick, body } => {
                let lab = lab.clone()?;
                let body = body.clone()?;
                Ok(Event::Found {
                    lab,
                    tick: *tick,
                    body,
                })
            }
            Event::Call { tick, bytes } => Ok(Event::Call {
                tick: *tick,
                bytes: bytes.clone()?,
            }),
        }
    }
}
