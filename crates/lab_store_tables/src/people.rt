//! The law that a change of persons, sessions or forms in the tables means the same change of the
//! laboratory.
ghost use Rattle.std.specs.Prelude.{ℕ, List, [], ◌∷◌};
ghost use Rattle.lab_people_access.specs.declared.persons.Person.{Person};
ghost use Rattle.lab_people_access.specs.declared.sessions.Session.{Session};
ghost use Rattle.lab_records_kept.specs.declared.records.FormVersion.{FormVersion};
ghost use Rattle.lab_records_kept.specs.declared.changes.Change.TheVariants.{PersonAdded, PersonSet, SessionSet, FormAdded};
ghost use Rattle.lab_records_kept.specs.Changes.{ChangesFit};
ghost use Rattle.lab_records_keeper.specs.Worlds.{Changes};
ghost use Rattle.lab_store_tables.specs.Rows.{Tables};
ghost use Rattle.lab_store_tables.specs.Meaning.{meaning};
ghost use Rattle.lab_store_tables.specs.WellKept.{AreWellKept};
ghost use Rattle.lab_store_tables.specs.Changes.{Applies};
ghost use Rattle.lab_store_tables.specs.Held.{AreRising};

/// Law: if a change is made in well-kept tables, the new tables mean the laboratory of the code as
/// the change makes it, and every other laboratory is unchanged. The change sets a session, adds or
/// sets a person, or adds a version of a form.
pub fn a_change_of_people_or_forms_means_itself()
    ensures session_set { (old new : Tables) (code : List ℕ) (session : Session) → AreWellKept old
        → ChangesFit (meaning old code) (SessionSet session ∷ [])
        → Applies code (SessionSet session) old new
        → Changes code (SessionSet session ∷ []) (meaning old) (meaning new) }
    ensures person_set { (old new : Tables) (code : List ℕ) (person : Person) → AreWellKept old
        → Applies code (PersonSet person) old new
        → Changes code (PersonSet person ∷ []) (meaning old) (meaning new) }
    ensures person_added { (old new : Tables) (code : List ℕ) (person : Person) → AreRising old
        → AreWellKept old → ChangesFit (meaning old code) (PersonAdded person ∷ [])
        → Applies code (PersonAdded person) old new
        → Changes code (PersonAdded person ∷ []) (meaning old) (meaning new) }
    ensures form_added { (old new : Tables) (code : List ℕ) (form : FormVersion) → AreRising old
        → AreWellKept old → ChangesFit (meaning old code) (FormAdded form ∷ [])
        → Applies code (FormAdded form) old new
        → Changes code (FormAdded form ∷ []) (meaning old) (meaning new) }
{}
