//! The law that the changes of the tables mean the changes of the laboratory.

ghost use Rattle.std.specs.Prelude.{ℕ, List};
ghost use Rattle.lab_records_kept.specs.declared.changes.Change.{Change};
ghost use Rattle.lab_records_kept.specs.Changes.{ChangesFit};
ghost use Rattle.lab_records_keeper.specs.Worlds.{Changes};
ghost use Rattle.lab_store_tables.specs.Rows.{Tables};
ghost use Rattle.lab_store_tables.specs.Meaning.{meaning};
ghost use Rattle.lab_store_tables.specs.WellKept.{IsWellKept};
ghost use Rattle.lab_store_tables.specs.Held.{AreRising};
ghost use Rattle.lab_store_tables.specs.Steps.{AreMadeIfAny};

/// Law: if changes of any kinds are made in well-kept tables, one after the other, the new tables
/// mean the laboratory of the code as the changes make it, and every other laboratory is unchanged;
/// and the new tables are well kept. The changes fit the laboratory, and each left a database that
/// keeps its own rules.
pub fn changes_of_the_tables_mean_themselves()
    ensures changed { (old new : Tables) (code : List ℕ) (changes : List Change) → AreRising old
        → IsWellKept old → ChangesFit (meaning old code) changes → AreMadeIfAny code changes old new
        → Changes code changes (meaning old) (meaning new) }
    ensures kept { (old new : Tables) (code : List ℕ) (changes : List Change) → AreRising old
        → IsWellKept old → ChangesFit (meaning old code) changes → AreMadeIfAny code changes old new
        → IsWellKept new }
{}
