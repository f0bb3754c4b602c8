//! The law about the meaning of the rows of a laboratory that is founded.
ghost use Rattle.lab_records_kept.specs.declared.births.Newborn.{Newborn};
ghost use Rattle.lab_records_kept.specs.Births.{newborn_lab};
ghost use Rattle.lab_records_keeper.specs.Worlds.{Places};
ghost use Rattle.lab_store_tables.specs.Rows.{Tables};
ghost use Rattle.lab_store_tables.specs.Meaning.{meaning};
ghost use Rattle.lab_store_tables.specs.WellKept.{AreWellKept};
ghost use Rattle.lab_store_tables.specs.Held.{AreRising};
ghost use Rattle.lab_store_tables.specs.Founding.{PlacesNewborn};

/// Law: if a newborn laboratory is added to well-kept tables that have no laboratory of its code,
/// the new tables mean this laboratory under its code, with its three founders and the first row of
/// its trail, and every other laboratory is unchanged; and the new tables are well kept. The
/// premise `PlacesNewborn`: nothing was asked for any of the founders, and the new tables keep the
/// database's own rules.
pub fn a_founded_laboratory_is_placed()
    ensures placed { (old new : Tables) (newborn : Newborn) → AreRising old → AreWellKept old
        → PlacesNewborn newborn old new
        → Places (newborn_lab newborn) (meaning old) (meaning new) }
    ensures kept { (old new : Tables) (newborn : Newborn) → AreRising old → AreWellKept old
        → PlacesNewborn newborn old new → AreWellKept new }
{}
