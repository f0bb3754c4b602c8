//! The law that a change of records in the tables means the same change of the laboratory.
ghost use Rattle.std.specs.Prelude.{ℕ, List, [], ◌∷◌};
ghost use Rattle.lab_seal_versions.specs.declared.rows.EntryRow.{EntryRow};
ghost use Rattle.lab_records_kept.specs.declared.records.Record.{Record};
ghost use Rattle.lab_records_kept.specs.declared.records.Signature.{Signature};
ghost use Rattle.lab_records_kept.specs.declared.records.Version.{Version};
ghost use Rattle.lab_records_kept.specs.declared.changes.Change.TheVariants.{RecordAdded, RowAdded, VersionOpened, SignatureAdded};
ghost use Rattle.lab_records_kept.specs.Changes.{ChangesFit};
ghost use Rattle.lab_records_keeper.specs.Worlds.{Changes};
ghost use Rattle.lab_store_tables.specs.Rows.{Tables};
ghost use Rattle.lab_store_tables.specs.Meaning.{meaning};
ghost use Rattle.lab_store_tables.specs.WellKept.{AreWellKept};
ghost use Rattle.lab_store_tables.specs.Changes.{Applies};
ghost use Rattle.lab_store_tables.specs.Held.{AreRising};

/// Law: if a change of records is made in well-kept tables, the new tables mean the laboratory of
/// the code as the change makes it, and every other laboratory is unchanged. The change adds a row
/// or a signature to a version, opens a version, or adds a record.
pub fn a_change_of_records_means_itself()
    ensures entry { (old new : Tables) (code : List ℕ) (number : ℕ) (entry : EntryRow)
        → AreRising old → AreWellKept old → Applies code (RowAdded number entry) old new
        → Changes code (RowAdded number entry ∷ []) (meaning old) (meaning new) }
    ensures signature { (old new : Tables) (code : List ℕ) (number version : ℕ)
        (signature : Signature) → AreRising old → AreWellKept old
        → Applies code (SignatureAdded number version signature) old new
        → Changes code (SignatureAdded number version signature ∷ []) (meaning old) (meaning new) }
    ensures version { (old new : Tables) (code : List ℕ) (number : ℕ) (version : Version)
        → AreRising old → AreWellKept old
        → ChangesFit (meaning old code) (VersionOpened number version ∷ [])
        → Applies code (VersionOpened number version) old new
        → Changes code (VersionOpened number version ∷ []) (meaning old) (meaning new) }
    ensures added { (old new : Tables) (code : List ℕ) (kept : Record)
        → AreRising old → AreWellKept old
        → ChangesFit (meaning old code) (RecordAdded kept ∷ [])
        → Applies code (RecordAdded kept) old new
        → Changes code (RecordAdded kept ∷ []) (meaning old) (meaning new) }
{}
