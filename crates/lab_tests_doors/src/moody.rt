//! A keeper that refuses every second call.
use lab_desk::Lists;
use lab_records::{
    BadStore, Change, Keeper, KeeperFault, LabCode, Need, Newborn, PlacingFault, Series, Slice,
};

/// A list of laboratories that refuses every second call, for memory and for storage by turns, for
/// as long as it is moody. It tells nothing of what it keeps, so that its calls are proved without
/// it.
#[derive(Drop)]
pub(crate) struct Moody {
    /// What it keeps.
    pub(crate) lists: Lists,
    /// How many calls it had, of the last four.
    pub(crate) calls: u64,
    /// Whether it refuses any.
    pub(crate) is_moody: bool,
}

impl Moody {
    // The fault of this call, if it is one that is refused: of four, the second and the last.
    fn refusal(&mut self) -> Option<KeeperFault> {
        self.calls = (self.calls % 4).saturating_add(1);
        match (self.is_moody, self.calls) {
            (true, 2) => Some(KeeperFault::Memory),
            (true, 4) => Some(KeeperFault::Refused(BadStore)),
            _ => None,
        }
    }
}

impl Keeper for Moody {
    ghost use Rattle.std.specs.Prelude.{None};

    ghost world = { λ _. record {
      meaning = λ _. None;
      is_honest = ⊥;
      is_live = ⊥;
      faults = 0;
      is_reached = ⊥;
      may_refuse = Unit {0};
      may_leave = λ _. ⊥;
      is_safe = ⊥;
    } };

    ghost rests = { λ _ _. Unit {0} };

    ghost moves = { λ _ _ _ _. Unit {0} };

    ghost places = { λ _ _ _. Unit {0} };

    ghost refuses_load = { λ _ _ _ _. Unit {0} };

    ghost refuses_changes = { λ _ _ _ _. Unit {0} };

    ghost refuses_founding = { λ _ _ _. Unit {0} };

    fn load(&mut self, code: &LabCode, need: &Need) -> Result<Option<Slice>, KeeperFault> {
        match self.refusal() {
            Some(fault) => Err(fault),
            None => self.lists.load(code, need),
        }
    }

    fn apply(&mut self, code: &LabCode, changes: Series<Change>) -> Result<(), KeeperFault> {
        match self.refusal() {
            Some(fault) => {
                drop(changes);
                Err(fault)
            }
            None => self.lists.apply(code, changes),
        }
    }

    fn found(&mut self, newborn: Newborn) -> Result<(), PlacingFault> {
        match self.refusal() {
            Some(fault) => {
                drop(newborn);
                Err(placing(fault))
            }
            None => self.lists.found(newborn),
        }
    }

    ghost kept = { λ keeper code lab honest live reached. absurd honest };

    ghost kept_left = { λ keeper held code lab honest live safe left. absurd honest };

    ghost still = { λ _. tt };

    ghost rests_on = { λ _ _ _ _ _. tt };

    ghost rests_unchanged = { λ _ _ _ _. tt };

    ghost moves_on = { λ _ _ _ _ _ _ _. tt };
}

// The fault of a founding that is refused for what a change would be.
fn placing(fault: KeeperFault) -> PlacingFault {
    match fault {
        KeeperFault::Memory => PlacingFault::Memory,
        KeeperFault::Refused(_) => PlacingFault::Storage,
    }
}
