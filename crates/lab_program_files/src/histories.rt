//! The laws of an installation's history. The functions do nothing: their contracts say the laws.

ghost use Rattle.std.specs.Prelude.{◌≡◌, List, [], ◌∷◌, None};
ghost use Rattle.sqlite.specs.Files.{file_state, over_files};
ghost use Rattle.sqlite.specs.State.{HasCleanDisk};
ghost use Rattle.lab_records_keeper.specs.Worlds.{Meaning};
ghost use Rattle.lab_desk_events.specs.Keeping.{GivenWithin};
ghost use Rattle.lab_program_opening.specs.Files.{AreHeldIn, IsOpened};
ghost use Rattle.lab_program_files.specs.Histories.{Begins, GoesOnAlone, IsDone, IsHistory, IsTaskRun, Work, world_left, world_opened};

use sqlite_disk::Disk;

/// Law: what each task does over a file is a run over that file, as one of `Desk::run`, whose
/// events are the task's: a founding, taken or refused; the requests that were handled; none where
/// laboratories were copied out, or moved in. It is so also where its last event met a fault that
/// shut the file.
pub fn what_a_task_does_is_a_run<D: Disk>()
    ensures { (work : Work D D.Disk) → IsDone work → (world_opened work).is_live →
        GivenWithin (world_opened work) (world_left work) (IsTaskRun work) }
{}

/// Law: a file without a byte, whatever lies in its log, in which `make_file` has made the tables,
/// begins a history without a laboratory.
pub fn a_history_begins<D: Disk>()
    ensures { (work : Work D D.Disk) → work.held.db ≡ [] →
        IsOpened over_files (AreHeldIn work.held) work.opened →
        HasCleanDisk (file_state work.opened) → Begins (λ _. None) work }
{}

/// Law: an installation goes on alone. Over every history of a file, of foundings, services, copies
/// and a move, each ended by a crash or by closing the file: each laboratory's replies to what was
/// taken, byte for byte, over the whole history, and its rows at the end, are those of its own small
/// machine, run over its own taken events alone; for what a stop leaves also over at most one event
/// that the store refused there, and whose commit was done all the same. Each laboratory is within
/// its limits; and each version that one has released is signed by two persons, or three, over the
/// SHA-256 of exactly that version.
///
/// The premises are those of [`IsHistory`]: the disk returns what was written, an opening finds
/// what a crash at the stop before may have left, or what its close left (`may` of `Leaves`), and
/// the tables have the schema's text there (`schema` of `Reopens`). The brackets ask for one way to
/// see it, whichever it is.
pub fn an_installation_goes_on_alone<D: Disk>()
    ensures { (first : Meaning) (work : Work D D.Disk) (others : List (Work D D.Disk))
        (left : Meaning) → IsHistory first work others left →
        ∥ GoesOnAlone first (work ∷ others) left ∥₁ }
{}
