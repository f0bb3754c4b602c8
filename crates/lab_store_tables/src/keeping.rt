//! The laws that well-kept tables stay well kept after every change of a laboratory, and after
//! every founding.
ghost use Rattle.std.specs.Prelude.{◌≡◌, ℕ, List, [], ◌∷◌};
ghost use Rattle.sqlite.specs.Effect.{Database};
ghost use Rattle.sqlite_schema.specs.Rules.{Obeys};
ghost use Rattle.lab_records_kept.specs.declared.births.Newborn.{Newborn};
ghost use Rattle.lab_records_kept.specs.declared.changes.Change.{Change};
ghost use Rattle.lab_records_kept.specs.declared.labs.Lab.{Lab};
ghost use Rattle.lab_records_kept.specs.Births.{newborn_lab};
ghost use Rattle.lab_records_kept.specs.Changes.{ChangesFit};
ghost use Rattle.lab_store_tables.specs.Schema.{lab_schema};
ghost use Rattle.lab_store_tables.specs.Rows.{Tables, tables_in};
ghost use Rattle.lab_store_tables.specs.Held.{IsTyped};
ghost use Rattle.lab_store_tables.specs.Meaning.{meaning};
ghost use Rattle.lab_store_tables.specs.WellKept.{AreWellKept};
ghost use Rattle.lab_store_tables.specs.Changes.{Applies};
ghost use Rattle.lab_store_tables.specs.Placing.{PlacesLab};
ghost use Rattle.lab_store_tables.specs.ByRules.{IsByRules};

/// Law: if a change fits the laboratory of the code that well-kept tables mean, the tables after
/// the change are well kept, and name the same schema as before. A database of the schema itself
/// ensures that ids and keys are unique and that arrows lead to rows, whatever is written.
pub fn a_change_keeps_the_tables_well()
    ensures rules { (db : Database) → IsTyped db → Obeys lab_schema db.trees
        → IsByRules (tables_in db.trees) }
    ensures kept { (old new : Tables) (code : List ℕ) (one : Change) → AreWellKept old
        → IsByRules new → ChangesFit (meaning old code) (one ∷ []) → Applies code one old new
        → AreWellKept new }
    ensures desk { (old new : Tables) (code : List ℕ) (one : Change) → Applies code one old new
        → new.desk ≡ old.desk }
{}

/// Law: if a laboratory is founded in well-kept tables, the tables after its rows are added are
/// well kept; and whichever laboratory is added, the tables name the same schema as before.
pub fn a_founding_keeps_the_tables_well()
    ensures kept { (old new : Tables) (newborn : Newborn) → AreWellKept old → IsByRules new
        → PlacesLab (newborn_lab newborn) old new → AreWellKept new }
    ensures desk { (old new : Tables) (lab : Lab) → PlacesLab lab old new → new.desk ≡ old.desk }
{}
