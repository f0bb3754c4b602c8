//! A keeper that a fault has shut, and that could not be opened anew.

use lab_forms_texts::{LabCode, Series};
use lab_records_keeper::{Keeper, KeeperFault, PlacingFault};
use lab_records_kept::{Change, Need, Newborn, Slice};

/// A keeper that a fault has shut: it refuses every call.
#[derive(Drop)]
pub struct Shut {
    /// Why it could not be opened anew.
    pub fault: KeeperFault,
}

impl Keeper for Shut {
    ghost use Rattle.lab_program_serve.specs.Shut.{shut_world};

    ghost world = { λ _. shut_world };

    ghost rests = { λ _ _. Unit {0} };

    ghost moves = { λ _ _ _ _. Unit {0} };

    ghost places = { λ _ _ _. Unit {0} };

    // That the keeper is shut is why.
    ghost refuses_load = { λ _ _ _ _. Unit {0} };

    ghost refuses_changes = { λ _ _ _ _. Unit {0} };

    ghost refuses_founding = { λ _ _ _. Unit {0} };

    fn load(&mut self, _code: &LabCode, _need: &Need) -> Result<Option<Slice>, KeeperFault> {
        Err(self.fault)
    }

    fn apply(&mut self, _code: &LabCode, changes: Series<Change>) -> Result<(), KeeperFault> {
        drop(changes);
        Err(self.fault)
    }

    fn found(&mut self, newborn: Newborn) -> Result<(), PlacingFault> {
        drop(newborn);
        match self.fault {
            KeeperFault::Refused(_) => Err(PlacingFault::Storage),
            KeeperFault::Memory => Err(PlacingFault::Memory),
        }
    }

    ghost kept = { λ keeper code lab honest live reached. absurd live };

    ghost kept_left = { λ keeper held code lab honest live safe left. absurd live };

    ghost still = { λ _. tt };

    ghost rests_on = { λ _ _ _ _ _. tt };

    ghost rests_unchanged = { λ _ _ _ _. tt };

    ghost moves_on = { λ _ _ _ _ _ _ _. tt };
}
