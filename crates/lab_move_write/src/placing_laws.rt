//! Law: a laboratory that is placed whole means itself.
ghost use Rattle.lab_records_kept.specs.declared.labs.Lab.{Lab};
ghost use Rattle.lab_records_kept.specs.Bound.{IsBound};
ghost use Rattle.lab_records_kept.specs.Dual.{IsDual};
ghost use Rattle.lab_records_kept.specs.Limits.{IsWithin};
ghost use Rattle.lab_records_keeper.specs.Worlds.{Places};
ghost use Rattle.lab_store_tables.specs.Rows.{Tables};
ghost use Rattle.lab_store_tables.specs.Meaning.{meaning};
ghost use Rattle.lab_store_tables.specs.WellKept.{AreWellKept};
ghost use Rattle.lab_store_tables.specs.Held.{AreRising};
ghost use Rattle.lab_store_tables.specs.Placing.{PlacesLab};
ghost use Rattle.lab_move_write.specs.Placings.{PlacesByRules};

/// Law: a laboratory within its limits, bound and under dual control, that is placed whole in
/// well-kept tables, by the database's own rules, is there then under its code, where none was;
/// every other laboratory means what it meant; and the tables are well kept. What is added is what
/// `PlacesLab` says.
pub fn a_laboratory_is_placed()
    ensures placed { (old new : Tables) (lab : Lab) → AreRising old → AreWellKept old
        → PlacesByRules lab old new → IsWithin lab → IsBound lab → IsDual lab
        → Places lab (meaning old) (meaning new) }
    ensures kept { (old new : Tables) (lab : Lab) → AreRising old → AreWellKept old
        → PlacesByRules lab old new → IsWithin lab → IsBound lab → IsDual lab
        → AreWellKept new }
    ensures rows { (old new : Tables) (lab : Lab) → PlacesByRules lab old new
        → PlacesLab lab old new }
{}
