//! Who opens a keeper, and opens it anew.

ghost use Rattle.std.specs.Prelude.{◌≡◌, IfErr, IfOk};
ghost use Rattle.lab_forms_texts.specs.declared.refusals.Fault.{Fault};
ghost use Rattle.lab_records_keeper.specs.declared.faults.BadStore.{BadStore};

use lab_records_keeper::KeeperFault;
use std::alloc::Global;

/// Who opens a keeper that lies somewhere, and opens it anew once it doesn't answer.
pub trait Opener<H, S> {
    /// A keeper after its last call. Whoever has one can only close it.
    type Finished;

    /// What is known of a keeper that was opened.
    ghost opened: { S → Type 0 };

    /// What is known if no keeper was opened, by the fault.
    ghost unopened: { Fault BadStore → Type 0 };

    /// What is known of a keeper that was closed.
    ghost closed: { S → Type 0 };

    /// Returns the keeper of a finished one.
    ghost keeper_of: { Self.Finished → S };

    /// Returns whether what was opened last still lies where it was opened.
    fn is_there(&mut self, host: &mut H) -> bool;

    /// Opens the keeper.
    ///
    /// # Errors
    /// It could not be opened, or there was no memory for it.
    fn open(&mut self, alloc: Global, host: &mut H) -> Result<S, KeeperFault>
        ensures opened { IfOk result opened }
        ensures unopened { IfErr result unopened };

    /// Takes a keeper after its last call.
    fn finish(&self, keeper: S) -> Self::Finished
        ensures { keeper_of result ≡ keeper };

    /// Closes a keeper. A fault is passed over, since nothing is lost by it.
    fn close(&mut self, host: &mut H, finished: Self::Finished)
        ensures { closed (keeper_of finished) };
}
