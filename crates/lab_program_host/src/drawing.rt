//! What the outside world passes in when a connection is accepted: the moment, and the random
//! words.

ghost use Rattle.std.specs.Prelude.{◌≡◌, ℕ, List, [], ◌∷◌, Option, None, IfOk};
ghost use Rattle.lab_forms_streams.specs.Sending.{read_fault_word};
ghost use Rattle.lab_program_host.specs.Sources.{GivesInOrder};

use lab_forms_texts::{Moment, Tick};
use std::fmt;
use thiserror::Error;

/// The clock or the source of random words failed. The fault is printed as its word.
#[derive(Clone, Copy, Debug, PartialEq, Eq, Error)]
pub struct DrawFault;

impl DrawFault {
    /// Returns `None`: the fault has no number, because no reply can report it.
    pub fn number(&self) -> Option<u32>
        ensures { result ≡ None }
    {
        None
    }

    /// Returns the word of the fault.
    pub fn word(&self) -> &'static str
        ensures { result.now ≡ read_fault_word }
    {
        "read_fault"
    }
}

impl fmt::Display for DrawFault {
    ghost use Rattle.std.specs.Prelude.{Some};
    ghost use Rattle.lab_forms_streams.specs.Sending.{read_fault_word};

    ghost output = { λ _. Some read_fault_word };

    fn fmt<W: fmt::Write>(&self, f: &mut fmt::Formatter<W>) -> fmt::Result {
        f.write_str(self.word())
    }
}

/// A clock.
pub trait Clock {
    /// The moments that the clock returns from here on, if they are known.
    ghost coming: { Self → Option (List ℕ) } = { λ _. None };

    /// Returns the present moment.
    fn moment(&mut self) -> Result<Moment, DrawFault>
        ensures given { IfOk result (λ moment.
            GivesInOrder (coming self.old) (coming self.new) (moment ∷ [])) };
}

/// A source of random words.
pub trait Chance {
    /// The words that the source returns from here on, in groups of eight, if they are known.
    ghost coming: { Self → Option (List (List ℕ)) } = { λ _. None };

    /// Returns eight words that nobody can predict.
    fn words(&mut self) -> Result<[u64; 8], DrawFault>
        ensures given { IfOk result (λ words.
            GivesInOrder (coming self.old) (coming self.new) (words ∷ [])) };
}

/// Returns the tick of a connection: a moment of the clock, and eight random words.
///
/// # Errors
/// `DrawFault` if the clock or the source of random words failed.
pub fn draw<C: Clock, X: Chance>(clock: &mut C, chance: &mut X) -> Result<Tick, DrawFault>
    ensures moment { IfOk result (λ tick.
        GivesInOrder (C.coming clock.old) (C.coming clock.new) (tick.moment ∷ [])) }
    ensures words { IfOk result (λ tick.
        GivesInOrder (X.coming chance.old) (X.coming chance.new) (tick.words ∷ [])) }
{
    let moment = clock.moment()?;
    let words = chance.words()?;
    Ok(Tick { moment, words })
}
