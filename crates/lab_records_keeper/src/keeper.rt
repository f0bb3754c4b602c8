//! Keepers of laboratories: a list in memory, or the tables of a database. The same code of the
//! desk works with every keeper, so a keeper's promises are stated here: about the meaning of each
//! laboratory, about the keeper's own rows, about what stays true from one call to the next, and
//! about what a crash may leave.

ghost use Rattle.std.specs.Prelude.{◌≡◌, ℕ, List, [], Option, Some, IfOk, IfErr};
ghost use Rattle.lab_records_kept.specs.declared.labs.Lab.{Lab as WholeLab};
ghost use Rattle.lab_records_kept.specs.declared.changes.Change.{Change as OneChange};
ghost use Rattle.lab_records_kept.specs.declared.needs.Need.{Need as WholeNeed};
ghost use Rattle.lab_records_kept.specs.declared.births.Newborn.{Newborn as OneNewborn};
ghost use Rattle.lab_records_kept.specs.Parts.{part_of};
ghost use Rattle.lab_records_keeper.specs.Worlds.{World, Meaning as AnyMeaning, Given, KeeperFaultFits, PlacingFaultFits};
ghost use Rattle.lab_records_keeper.specs.Calls.{Applies, Loads, PlacesOne};

use crate::faults::{KeeperFault, PlacingFault};
use lab_forms_texts::{LabCode, Series};
use lab_records_kept::{Change, Need, Newborn, Slice};

/// A keeper of laboratories.
pub trait Keeper {
    /// What is known about the keeper at a moment.
    ghost world: { Self → World };

    /// The rows are as they were before.
    ghost rests: { Self → Self → Type 0 };

    /// The rows are as they were before, except for these changes of the laboratory with this code.
    ghost moves: { Self → Self → List ℕ → List OneChange → Type 0 };

    /// The rows are as they were before, except for this laboratory, which is new.
    ghost places: { Self → Self → WholeLab → Type 0 };

    /// Why the store may refuse to load this part of the laboratory with this code, in a call between
    /// these two moments.
    ghost refuses_load: { Self → Self → List ℕ → WholeNeed → Type 0 };

    /// Why the store may refuse these changes of the laboratory with this code.
    ghost refuses_changes: { Self → Self → List ℕ → List OneChange → Type 0 };

    /// Why the store may refuse to found this laboratory.
    ghost refuses_founding: { Self → Self → OneNewborn → Type 0 };

    /// Returns the part of a laboratory that is needed, or `None` if no laboratory has that code.
    ///
    /// # Errors
    /// The store failed, or memory ran out.
    fn load(&mut self, code: &LabCode, need: &Need) -> Result<Option<Slice>, KeeperFault>
        ensures part { Given (world self.old) (world self.new)
            (IfOk result (λ found. found ≡ part_of need.now ((world self.old).meaning code.now))) }
        ensures loads { Loads (world self.old) (world self.new) (rests self.old self.new) result }
        ensures cause { IfErr result
            (KeeperFaultFits (refuses_load self.old self.new code.now need.now)) };

    /// Makes changes of one laboratory, all or none, in one commit; without a commit if there are
    /// no changes.
    ///
    /// # Errors
    /// The store failed, or memory ran out.
    fn apply(&mut self, code: &LabCode, changes: Series<Change>) -> Result<(), KeeperFault>
        ensures applies { Applies code.now changes (world self.old) (world self.new)
            (rests self.old self.new) (moves self.old self.new) result }
        ensures cause { IfErr result
            (KeeperFaultFits (refuses_changes self.old self.new code.now changes)) };

    /// Founds a laboratory in one commit, if no laboratory has that code.
    ///
    /// # Errors
    /// The laboratory already exists, the store failed, or memory ran out.
    fn found(&mut self, newborn: Newborn) -> Result<(), PlacingFault>
        ensures founds { PlacesOne newborn (world self.old) (world self.new)
            (rests self.old self.new) (places self.old self.new) result }
        ensures cause { IfErr result
            (PlacingFaultFits (refuses_founding self.old self.new newborn) (Unit {0})) };

    /// A laboratory is kept under its own code.
    ghost kept: { (keeper : Self) (code : List ℕ) (lab : WholeLab) → (world keeper).is_honest →
        (world keeper).is_live → (world keeper).is_reached →
        (world keeper).meaning code ≡ Some lab → lab.code ≡ code };

    /// A laboratory that a crash leaves is also kept under its own code, if the crash leaves
    /// well-kept tables alone.
    ghost kept_left: { (keeper : Self) (held : AnyMeaning) (code : List ℕ) (lab : WholeLab) →
        (world keeper).is_honest → (world keeper).is_live → (world keeper).is_safe →
        (world keeper).may_leave held → held code ≡ Some lab → lab.code ≡ code };

    /// Rows that no call changed are as they were before.
    ghost still: { (keeper : Self) → rests keeper keeper };

    /// Rows that stay the same in each of two calls stay the same over both.
    ghost rests_on: { (first next last : Self) → rests first next → rests next last →
        rests first last };

    /// Rows that stay the same show no change.
    ghost rests_unchanged: { (first next : Self) (code : List ℕ) → rests first next →
        moves first next code [] };

    /// Changes after a call that left the rows as they were are the same changes of the rows before
    /// that call.
    ghost moves_on: { (first next last : Self) (code : List ℕ) (changes : List OneChange) →
        rests first next → moves next last code changes → moves first last code changes };
}
