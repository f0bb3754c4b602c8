//! A file of an older schema, moved.

ghost use Rattle.std.specs.Prelude.{◌≡◌, ℕ, ℤ, List, Option, IfErr, IfOk, OnOk, IsTrue};
ghost use Rattle.std.specs.List.{list_any};
ghost use Rattle.sqlite.specs.Effect.{Database};
ghost use Rattle.sqlite.specs.Held.{state};
ghost use Rattle.sqlite.specs.State.{HasCleanDisk};
ghost use Rattle.lab_store_tables.specs.Ready.{IsAtRest, tables_of};
ghost use Rattle.lab_store_files.specs.declared.faults.FileFault.TheVariants.{Storage};
ghost use Rattle.lab_store_files.specs.NewFiles.{IsBlank};
ghost use Rattle.lab_store_files.specs.Owed.{Names as HasNumber};
ghost use Rattle.lab_store_files.specs.Schemas.{is_taken};
ghost use Rattle.lab_store_tables.specs.Meaning.{has_code};
ghost use Rattle.lab_store_tables.specs.Rows.{Tables};
ghost use Rattle.lab_move_tables.specs.OldRows.{IsOldFile, old_tables};
ghost use Rattle.lab_move_tables.specs.PeerFiles.{IsPeerFile};
ghost use Rattle.lab_move_tables.specs.Reading.{ReadsOld};
ghost use Rattle.lab_move_tables.specs.Standing.{StandsBy};
ghost use Rattle.lab_move_tables.specs.declared.older.Older.{Older as AnyOlder};
ghost use Rattle.lab_move_tables.specs.declared.older.Older.TheVariants.{Two};
ghost use Rattle.lab_move_write.specs.Unfinished.{IsBeingFilled};
ghost use Rattle.lab_move_read.specs.Laboratories.{codes_of};
ghost use Rattle.lab_move.specs.declared.faults.MoveFault.{MoveFault as AnyFault};
ghost use Rattle.lab_move.specs.declared.faults.MoveFault.TheVariants.{File};
ghost use Rattle.lab_move.specs.Causes.{IsMoveCaused};
ghost use Rattle.lab_move.specs.Counting.{HasAsMany};
ghost use Rattle.lab_move.specs.Faults.{is_early};
ghost use Rattle.lab_move.specs.Moving.{HasCause, IsFirstUnsound, IsMoved, IsNoInstallation, IsSoundIn, IsStart, Lasts, LeavesUnfinished};
ghost use Rattle.lab_move.specs.OldFiles.{IsNamedOldFile, StandsFor, is_old_desk};
ghost use Rattle.lab_move.specs.Owed.{IsMoveOwed, MovesAsOwed, OpensOld, StopsAt, precedes};

use crate::faults::MoveFault;
use crate::filling::fill;
use crate::opening::OldFile;
use lab_move_write::{MoveProgress, make_tables};
use sqlite::{Alter, Connection};
use std::alloc::Global;

/// Law: a file that was left while it was being filled isn't one in which laboratories are kept, and
/// an empty one isn't either: `open` of `lab_store_files` returns that, or that the store refused.
pub fn an_unfinished_file_is_refused<S: Alter>()
    ensures filling { (db : Database) → IsBeingFilled db → IsNoInstallation S.Store db }
    ensures blank { (db : Database) → IsBlank db → IsNoInstallation S.Store db }
{}

/// Law: a file whose tables are, text for text, those of an older schema, in our style or in that of
/// another program, and whose one row of `desk` names the schema, is never refused as another one.
pub fn an_exact_file_is_named()
    ensures exact { (older : AnyOlder) (db : Database) → IsOldFile older db →
        IsTrue (is_old_desk older (old_tables older db.trees).desk) → IsNamedOldFile older db }
    ensures peer { (db : Database) → IsPeerFile db →
        IsTrue (is_old_desk Two (old_tables Two db.trees).desk) → IsNamedOldFile Two db }
{}

/// Law: a file that names an older schema, and stands for tables as one of it, stands for them.
pub fn a_named_file_stands()
    ensures { (older : AnyOlder) (db : Database) → IsNamedOldFile older db → (t : Tables) →
        StandsBy older db t → StandsFor db t }
{}

/// Law: the first laboratory that isn't sound, in the order in which they are moved, is the one of
/// the least code (`least`), and there is one such alone (`alone`); each laboratory of a lesser code
/// is sound (`before`).
pub fn the_first_unsound_is_least()
    ensures least { (t : Tables) (code : List ℕ) → IsFirstUnsound t (codes_of t) code →
        StopsAt t code }
    ensures alone { (t : Tables) (one other : List ℕ) → StopsAt t one → StopsAt t other →
        one ≡ other }
    ensures before { (t : Tables) (code : List ℕ) → IsFirstUnsound t (codes_of t) code →
        (other : List ℕ) → IsTrue (list_any (has_code other) t.labs) →
        IsTrue (precedes other code) → IsSoundIn t other }
{}

/// Law: a move owes one refusal at most, where the old file shows a number, of the tables for which
/// it stands: the old file's come before that of the new one, and that before the laboratories'.
pub fn one_refusal_is_owed()
    ensures { (old fresh : Database) (number : Option ℤ) → HasNumber old number → (t : Tables) →
        (one other : AnyFault) → IsMoveOwed OpensOld (λ _ code. StopsAt t code) old fresh one →
        IsMoveOwed OpensOld (λ _ code. StopsAt t code) old fresh other → one ≡ other }
{}

/// How a move ended, and the connection to the old file, which is left.
#[derive(Drop)]
pub struct MoveEnd<S: Alter> {
    /// How many laboratories were moved, or why it stopped.
    pub ending: Result<u64, MoveFault>,
    /// The connection to the old file.
    pub left: Connection<S>,
}

/// Moves an old file, which isn't asked again of which schema it is, into a new one, which is empty:
/// the tables are made first, by one commit, each laboratory is placed by one more, in the order of
/// the codes' bytes, and the row that names the schema comes last, so that the new file isn't taken
/// for one in which laboratories are kept before it is whole. Answers how many laboratories there are.
/// Nothing is written to the old file.
///
/// # Errors
/// The new file has a table of a name that is wanted; the rows of a laboratory aren't well kept, or it
/// isn't bound or not under dual control; the store refused, a row isn't one that is written, or
/// belongs to no laboratory; or memory ran out.
pub fn migrate<S: Alter, T: Alter, P: MoveProgress>(
    alloc: Global,
    old: OldFile<S>,
    new: &mut Connection<T>,
    progress: &mut P,
) -> MoveEnd<S>
    requires at_rest { IsAtRest (state T.Store new.old) }
    // Where it answers a number, the old file has so many laboratories, and the new one has each as
    // the old one means it, and no other. So each version keeps its text, its digest and its
    // signatures. What the old file means, the tables mean for which it stands, however its own are
    // written:
    ensures moved { IsBlank (state T.Store new.old).now → HasCleanDisk (state T.Store new.new) →
        (t : Tables) → StandsFor (state S.Store old.conn).now t →
        HasCleanDisk (state S.Store result.left) →
        IfOk result.ending (IsMoved t (tables_of (state T.Store new.new))) }
    // No row is left behind, whoever wrote the old file and whatever its rows say: each of its tables
    // has as many as that of the new one:
    ensures counted { IsBlank (state T.Store new.old).now → HasCleanDisk (state T.Store new.new) →
        HasCleanDisk (state S.Store result.left) → OnOk result.ending
        (HasAsMany (state S.Store old.conn).now (tables_of (state T.Store new.new))) }
    // The new file is then all that a start asks, whoever wrote the old one:
    ensures ready { IsBlank (state T.Store new.old).now → HasCleanDisk (state T.Store new.new) →
        OnOk result.ending (IsStart (state T.Store new.new)) }
    // A fault has this cause:
    ensures refused { IfErr result.ending (HasCause (state S.Store old.conn)
        (state S.Store result.left) (state T.Store new.old)) }
    // Each refusal is told exactly where it is owed, unless a store failed: the new file's first,
    // then that of the laboratory of the least code that isn't sound. An old file that was opened
    // owes none itself:
    ensures owed { MovesAsOwed (state S.Store old.conn)
        (state S.Store result.left) (state T.Store new.old) result.ending }
    // The refusal of a store has its cause; where it came while an empty new file was being filled,
    // what was placed before it and what was refused are named:
    ensures cause { HasCleanDisk (state S.Store result.left) →
        HasCleanDisk (state T.Store new.new) → IfErr result.ending (λ fault. fault ≡ File Storage →
        IsMoveCaused (state S.Store) T.Store old.conn result.left new.old new.new) }
    // However it ends, the old rows are as they were, and a crash leaves no more of the old file
    // than before:
    ensures old_same { ReadsOld (λ _ _. Unit {0})
        (state S.Store old.conn) (state S.Store result.left) result.ending }
    // However it ends, what is left of a new file that was empty is as before, is refused by `open`
    // of `lab_store_files`, or is the whole one; and where it failed, the new file is refused:
    ensures unfinished { IsBlank (state T.Store new.old).now → LeavesUnfinished T.Store
        (state S.Store old.conn) (state S.Store result.left) result.ending
        (state T.Store new.old) (state T.Store new.new) }
    // Where it answers a number, what it made lasts: a crash leaves the whole file and nothing else:
    ensures durable { IsBlank (state T.Store new.old).now → HasCleanDisk (state T.Store new.new) →
        OnOk result.ending (Lasts (state S.Store old.conn) (state S.Store result.left)
        (state T.Store new.new)) }
    // The new file is untouched where it has such a table itself:
    ensures untouched { IfErr result.ending (λ fault. IsTrue (is_early fault) → new.new ≡ new.old) }
    ensures taken { IsTrue (is_taken (state T.Store new.old).now.schema) →
        OnOk result.ending ⊥ × (new.new ≡ new.old) }
{
    let (mut file, older) = old.into_parts();
    match make_tables(new) {
        Ok(()) => {
            let ending = fill(alloc, &mut file, older, new, progress);
            MoveEnd {
                ending,
                left: file.conn,
            }
        }
        Err(fault) => MoveEnd {
            ending: Err(MoveFault::File(fault)),
            left: file.conn,
        },
    }
}
