//! The law of a move as the first task of a history. The function does nothing: its contract says
//! the law.

ghost use Rattle.std.specs.Prelude.{Ok, ℕ};
ghost use Rattle.sqlite_wal.specs.Recovery.{Image};
ghost use Rattle.sqlite_store.specs.declared.store.FileStore.{FileStore};
ghost use Rattle.sqlite.specs.Files.{file_state, over_files};
ghost use Rattle.sqlite.specs.Held.{Held};
ghost use Rattle.sqlite.specs.State.{HasCleanDisk};
ghost use Rattle.lab_store_tables.specs.Meaning.{meaning};
ghost use Rattle.lab_store_tables.specs.Ready.{tables_of};
ghost use Rattle.lab_store_tables.specs.Rows.{Tables};
ghost use Rattle.lab_move.specs.Moving.{IsMoved};
ghost use Rattle.lab_program_files.specs.Histories.{Begins, IsDone};
ghost use Rattle.lab_program_moves.specs.Histories.{moved_in};
ghost use Rattle.lab_program_moves.specs.Moves.{Moves};

use sqlite_disk::Disk;

/// Law: a move that was done begins a history, of which `an_installation_goes_on_alone`
/// (`lab_program_files`) says the rest: it is the start whose laboratories are those of the new
/// file (`own`). Where `moved` of [`Moves`] says that these tables were moved, they are the old
/// file's (`moved`): each laboratory of the new file is as these tables mean it. Each is within its
/// limits, bound and under dual control, and a crash at once leaves it so.
pub fn a_move_begins_a_history<D: Disk>()
    ensures own { (old new : Held (FileStore D D.Disk)) (count : ℕ)
        (moves : Moves over_files old new (Ok count)) (held : Image) →
        HasCleanDisk (file_state moves.made) →
        Begins (meaning (tables_of (file_state moves.made))) (moved_in held moves.made)
        × IsDone (moved_in held moves.made) }
    ensures moved { (old new : Held (FileStore D D.Disk)) (count : ℕ)
        (moves : Moves over_files old new (Ok count)) (t : Tables) (held : Image) →
        HasCleanDisk (file_state moves.made) →
        IsMoved t (tables_of (file_state moves.made)) count →
        Begins (meaning t) (moved_in held moves.made) × IsDone (moved_in held moves.made) }
{}
