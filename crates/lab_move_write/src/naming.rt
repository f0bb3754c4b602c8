//! Law: a file whose schema is named last.
ghost use Rattle.std.specs.Prelude.{◌≡◌, []};
ghost use Rattle.lab_records_keeper.specs.Worlds.{SameMeaning};
ghost use Rattle.lab_store_tables.specs.Rows.{Tables};
ghost use Rattle.lab_store_tables.specs.Meaning.{meaning};
ghost use Rattle.lab_store_tables.specs.WellKept.{AreWellKept, IsWellKept};
ghost use Rattle.lab_move_write.specs.Namings.{NamesSchema};

/// Law: where well-kept tables had no row that names the schema and have it now, they are well kept
/// with their schema, and every laboratory means what it meant.
pub fn a_named_file_is_well_kept()
    ensures kept { (old new : Tables) → old.desk ≡ [] → AreWellKept old → NamesSchema old new
        → IsWellKept new }
    ensures same { (old new : Tables) → NamesSchema old new
        → SameMeaning (meaning old) (meaning new) }
{}
