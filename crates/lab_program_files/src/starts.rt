//! The laws of the next start over a file. The functions do nothing: their contracts say the laws.

ghost use Rattle.std.specs.Prelude.{◌≡◌, ◌++◌, IsTrue, List, [], ◌∷◌, None, ℕ};
ghost use Rattle.sqlite_wal.specs.Recovery.{Image};
ghost use Rattle.sqlite_store.specs.declared.store.FileStore.{FileStore};
ghost use Rattle.sqlite_store.specs.FileStore.{recovers, view};
ghost use Rattle.sqlite.specs.Files.{file_state, over_files};
ghost use Rattle.sqlite.specs.Held.{Held, IsConnected, state};
ghost use Rattle.sqlite.specs.State.{HasCleanDisk};
ghost use Rattle.lab_forms_texts.specs.declared.tick.Tick.{Tick};
ghost use Rattle.lab_records_keeper.specs.Worlds.{Given, Meaning, Passes, SameMeaning};
ghost use Rattle.lab_records_copy_out.specs.Resting.{IsOnlyRead};
ghost use Rattle.lab_store.specs.StoreWorlds.{world_of};
ghost use Rattle.lab_desk_events.specs.Keeping.{AreWithin, GivenWithin};
ghost use Rattle.lab_desk_events.specs.Runs.{Handled};
ghost use Rattle.lab_desk_events.specs.Starts.{Start};
ghost use Rattle.lab_program_opening.specs.Files.{AreHeldIn, IsOpened, IsOurs};
ghost use Rattle.lab_program_serve.specs.Visits.{AreVisits, GoesOn, Visit};
ghost use Rattle.lab_program_files.specs.FileWorlds.{file_keeper, file_rests, file_world};
ghost use Rattle.lab_program_files.specs.Foundings.{IsFoundedAt};
ghost use Rattle.lab_program_files.specs.Starts.{AreSoFar, IsRunOver, IsServedOver, founding_answered, start_of};
ghost use Rattle.lab_program_files.specs.Stops.{Lies};

use sqlite::Alter;
use sqlite_disk::Disk;

/// Law: where a file and its log hold at a start what a crash at the end of the last connection may
/// leave of them, or what its close left (`Lies`), the laboratories that the start finds are among
/// those that this crash may leave (`left`; the brackets ask for one way to see it, whichever it
/// is). The connection of a start is live, and a crash at once leaves what was found and nothing else (`found`). The last connection
/// is any, also one that a fault has shut; `IsConnected` is what is true of each.
///
/// So the starts over a file are those of which the law `a_stop_and_a_start_go_on`
/// (`lab_desk_events`) speaks: with each stop and the start after it there is one more of them
/// (`goes_on`). Of the first start nothing is asked but what it found.
pub fn a_start_finds_what_was_left<D: Disk, S: Alter>()
    ensures left { (last : Held (FileStore D D.Disk)) (image : Image) (next : Held S) →
        IsConnected (view last.store) (recovers last.store) last.schema last.saved
        last.in_transaction →
        HasCleanDisk (file_state last) → Lies last image →
        IsOurs S.Store (AreHeldIn image) next → HasCleanDisk (state S.Store next) →
        ∥ (world_of (file_state last)).may_leave (world_of (state S.Store next)).meaning ∥₁ }
    ensures found { (image : Image) (next : Held S) → IsOurs S.Store (AreHeldIn image) next →
        HasCleanDisk (state S.Store next) → IsTrue (state S.Store next).is_open
        × ((held : Meaning) → (world_of (state S.Store next)).may_leave held →
        SameMeaning (world_of (state S.Store next)).meaning held) }
    ensures goes_on { (first : Meaning) (starts : List Start) (before after : Image)
        (opened last : Held (FileStore D D.Disk)) (next : Held S) (handled : List Handled) →
        AreSoFar first starts (world_of (file_state opened)).meaning →
        IsOurs over_files (AreHeldIn before) opened → IsRunOver over_files opened last handled →
        IsConnected (view last.store) (recovers last.store) last.schema last.saved
        last.in_transaction →
        HasCleanDisk (file_state last) → Lies last after →
        IsOurs S.Store (AreHeldIn after) next → HasCleanDisk (state S.Store next) →
        ∥ AreSoFar first (starts ++ start_of handled (world_of (file_state opened)).meaning
        (world_of (state S.Store next)).meaning ∷ []) (world_of (state S.Store next)).meaning ∥₁ }
{}

/// Law: an empty file, whatever lies in its log, is opened by `make_file` alone, as a new one: no
/// laboratory is in it.
pub fn a_new_file_is_empty<S: Alter>()
    ensures refused { (image : Image) (next : Held S) → image.db ≡ [] →
        IsOurs S.Store (AreHeldIn image) next → ¬ HasCleanDisk (state S.Store next) }
    ensures empty { (image : Image) (next : Held S) → image.db ≡ [] →
        IsOpened S.Store (AreHeldIn image) next → HasCleanDisk (state S.Store next) →
        IsTrue (state S.Store next).is_open
        × ((code : List ℕ) → (world_of (state S.Store next)).meaning code ≡ None) }
{}

/// Law: what a server did over a file, from its opening until it was given up, is a run over that
/// file, as one of `Desk::run`, also where its last request met a fault that shut the file;
/// `IsTime` says of each time of a server what is asked here, and `found` that the connection of a
/// start is live. So it is one of the starts of `goes_on`: each laboratory's replies and rows over
/// services and stops are those of its own small machine.
pub fn what_is_served_is_a_start<S: Alter>()
    ensures { (reply : List ℕ) (opened last : Held S) (visits : List Visit) →
        GivenWithin (file_world S.Store opened) (file_world S.Store last)
        (AreVisits (file_keeper S.Store) (GoesOn (file_keeper S.Store)) reply opened visits last) →
        Passes (file_world S.Store opened) (file_world S.Store last) →
        (file_world S.Store opened).is_live →
        GivenWithin (file_world S.Store opened) (file_world S.Store last)
        (IsServedOver S.Store opened last visits) }
{}

/// Law: a founding in a file is a run over that file of one event, and so one of the starts of `goes_on`; `IsFounding` says
/// of the task `found` what is asked here.
pub fn what_is_founded_is_a_start<S: Alter>()
    ensures { (opened last : Held S) (code : List ℕ) (tick : Tick) (bytes : List ℕ) →
        IsFoundedAt (file_keeper S.Store) opened last code tick bytes →
        Passes (file_world S.Store opened) (file_world S.Store last) →
        AreWithin (file_world S.Store opened) →
        IsRunOver S.Store opened last (founding_answered code tick bytes ∷ []) }
{}

/// Law: a copy out of a file is a run over that file without an event, and so one of the starts of `goes_on`; `IsCopying`
/// says of the task `copy` what is asked here, and `found` that the connection of a start is live.
pub fn what_is_copied_is_a_start<S: Alter>()
    ensures { (opened last : Held S) →
        IsOnlyRead (file_world S.Store) (file_rests S.Store) opened last →
        (file_world S.Store opened).is_live →
        Given (file_world S.Store opened) (file_world S.Store last)
        (IsRunOver S.Store opened last []) }
{}
