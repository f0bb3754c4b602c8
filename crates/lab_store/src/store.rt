//! The keeper over a connection.

ghost use Rattle.std.specs.Prelude.{◌≡◌, ◌≤◌, ◌⊎◌, [], None, IfErr, OnOk};
ghost use Rattle.sqlite.specs.Held.{state};
ghost use Rattle.lab_copy_rows.specs.Outs.{Sends, counted_all};
ghost use Rattle.lab_forms_texts.specs.Ordinals.{last_ordinal};
ghost use Rattle.lab_records_kept.specs.Parts.{part_of};
ghost use Rattle.lab_records_keeper.specs.Worlds.{Given, Lives, Shuts};
ghost use Rattle.lab_copy_rows.specs.Csv.{csv_text};
ghost use Rattle.lab_store.specs.StoreWorlds.{store_rests, store_world};
ghost use Rattle.lab_store_read.specs.Causes.{HasItsCause};
ghost use Rattle.lab_store_read.specs.Reads.{Reads};
ghost use Rattle.lab_store_load.specs.Readable.{HasPart};
ghost use Rattle.lab_store_read_copies.specs.Causes.{CopyHasItsCause, HasRange};
ghost use Rattle.lab_store_tables.specs.Meaning.{meaning};
ghost use Rattle.lab_store_tables.specs.Ready.{IsAtRest};
ghost use Rattle.lab_records_copy_out.specs.Faults.{CopyFaultFits};
ghost use Rattle.lab_records_copy_out.specs.Resting.{IsOnlyRead};
ghost use Rattle.lab_records_copy_out.specs.CopyTexts.{record_rows, walked_to};

use crate::{Tables, apply, found};
use lab_copy_rows::CopyOut;
use lab_forms_texts::{LabCode, Ordinal};
use lab_records_copy_out::{CopyOutFault, Progress};
use lab_records_keeper::{Keeper, KeeperFault, PlacingFault};
use lab_records_kept::{Change, Need, Newborn, Series, Slice};
use lab_store_load::{Counted, load};
use lab_store_read_copies::give_records_at;
use sqlite::{Alter, Connection};
use sqlite_schema::schema::Schema;
use std::alloc::Global;
use std::io::Write;
use std::marker::Model;

/// Why a call on a store failed: as of every keeper.
pub type StoreFault = KeeperFault;

/// The laboratories of a file, which was made by `create` or opened by `open`.
///
/// The id of the laboratory's row that was read last, and the number of its persons, are kept until
/// a request changes something: so a commit doesn't look the row up again, and a reading doesn't
/// count again. Nobody else writes to the file.
pub struct Store<S: Alter> {
    tables: Tables<S>,
    counted: Option<Counted>,
    alloc: Global,
}

// `drop` is written out, so that a caller doesn't prove again how each part is dropped.
impl<S: Alter + Drop> Drop for Store<S> {
    fn drop(self) {
        let Store {
            tables: _,
            counted: _,
            alloc: _,
        } = self;
    }
}

impl<S: Alter> Model for Store<S> {
    ghost use Rattle.sqlite.specs.Held.{Held, held_code, state};
    ghost use Rattle.lab_store.specs.Counting.{IsKeeping};

    ghost Value = { Held S };

    ghost coded = { held_code S.code };

    ghost view = { λ store. store.tables.conn };

    ghost invariant = { λ store. IsKeeping (state S.Store store.tables.conn) store.counted };
}

impl<S: Alter> Store<S> {
    // The keeper over a connection over which a file was made or opened (`src/openings.rt`).
    pub(crate) fn new(alloc: Global, conn: Connection<S>) -> Store<S>
        requires at_rest { IsAtRest (state S.Store conn) }
        ensures { result ≡ conn }
    {
        Store {
            tables: Tables { conn },
            counted: None,
            alloc,
        }
    }

    /// Returns the schema of the file, to which another program may have added.
    pub fn schema(&self) -> &Schema
        ensures { result.now ≡ (state S.Store self.now).now.schema }
    {
        self.tables.conn.schema()
    }

    /// Returns the connection, at rest.
    pub fn into_connection(self) -> Connection<S>
        ensures same { result ≡ self }
        ensures at_rest { IsAtRest (state S.Store result) }
    {
        let Store {
            tables: Tables { conn },
            counted: _,
            alloc: _,
        } = self;
        conn
    }

    /// Returns the part of a laboratory that a command needs, or `None` if no laboratory has the
    /// code.
    ///
    /// # Errors
    /// The store failed, a row isn't one that this program could have written, or memory ran out.
    pub fn part(&mut self, code: &LabCode, need: &Need) -> Result<Option<Slice>, KeeperFault>
        ensures reads { Reads (λ t found. found ≡ part_of need.now (meaning t code.now))
            (state S.Store self.old) (state S.Store self.new) result }
        ensures cause { HasItsCause (λ t. HasPart t code.now need.now)
            (state S.Store self.old) (state S.Store self.new) result }
    {
        load(self.alloc, &mut self.tables, &mut self.counted, code, need)
    }

    /// Writes the rows of the records from a number to a last one into a copy, one version at a
    /// time, and reports the progress after each number.
    ///
    /// # Errors
    /// The store failed, memory ran out, or a write failed or took no byte. The front of the rows'
    /// text was written.
    pub fn give_records<W: Write, P: Progress>(
        &mut self,
        alloc: Global,
        lab: &LabCode,
        from: Ordinal,
        last: u32,
        out: &mut CopyOut,
        writer: &mut W,
        progress: &mut P,
    ) -> Result<(), CopyOutFault>
        requires { last ≤ last_ordinal }
        ensures text { Given (store_world S.Store self.old) (store_world S.Store self.new)
            (Sends (W.contents writer.old) (W.contents writer.new) (csv_text (record_rows lab.now
            (walked_to ((store_world S.Store self.old).meaning lab.now) from last))) result) }
        ensures counts { Given (store_world S.Store self.old) (store_world S.Store self.new)
            (OnOk result (out.new ≡ record out.old {
              counts = counted_all out.old.counts (record_rows lab.now
                  (walked_to ((store_world S.Store self.old).meaning lab.now) from last));
            })) }
        ensures fault { IfErr result
            (CopyFaultFits ⊥ (store_world S.Store self.old).may_refuse (Unit {0})) }
        ensures lives { Given (store_world S.Store self.old) (store_world S.Store self.new)
            (OnOk result (Lives (store_world S.Store self.old) (store_world S.Store self.new))) }
        ensures cause { CopyHasItsCause (λ t. HasRange t lab.now from last)
            (state S.Store self.old) (state S.Store self.new) result }
        ensures read { IsOnlyRead (store_world S.Store) (store_rests S.Store) self.old self.new }
        ensures shuts { Given (store_world S.Store self.old) (store_world S.Store self.new)
            (Shuts (store_world S.Store self.old) (store_world S.Store self.new)) }
    {
        self.counted = None;
        give_records_at(
            alloc,
            &mut self.tables,
            lab,
            from,
            last,
            out,
            writer,
            progress,
        )
    }
}

// What is kept of the counts: everything if nothing is changed, and otherwise nothing.
fn counted_after(counted: Option<Counted>, changes: &Series<Change>) -> Option<Counted>
    ensures { ((changes.now ≡ []) × (result ≡ counted)) ⊎ (result ≡ None) }
{
    if changes.as_slice().is_empty() {
        counted
    } else {
        None
    }
}

impl<S: Alter> Keeper for Store<S> {
    ghost use Rattle.std.specs.Prelude.{◌≡◌, refl};
    ghost use Rattle.std.proofs.Common.{◌∙◌, inl};
    ghost use Rattle.sqlite.specs.Held.{state};
    ghost use Rattle.lab_store_tables.specs.Ready.{tables_of};
    ghost use Rattle.lab_store_tables.specs.Placing.{PlacesLab};
    ghost use Rattle.lab_store_tables.specs.Steps.{AreMadeIfAny};
    ghost use Rattle.lab_store.specs.Causes.{RefusesCommit, RefusesLoad, RefusesNewborn};
    ghost use Rattle.lab_store.specs.StoreWorlds.{world_of};
    ghost use Rattle.lab_store.specs.StoreLaws.{own_code, own_code_left, made_after_rest};

    ghost world = { λ store. world_of (state S.Store store) };

    ghost rests = { λ old new. tables_of (state S.Store new) ≡ tables_of (state S.Store old) };

    ghost moves = { λ old new code changes. AreMadeIfAny code changes
        (tables_of (state S.Store old)) (tables_of (state S.Store new)) };

    ghost places = { λ old new lab. PlacesLab lab
        (tables_of (state S.Store old)) (tables_of (state S.Store new)) };

    ghost refuses_load = { RefusesLoad S.Store };

    ghost refuses_changes = { RefusesCommit S.Store };

    ghost refuses_founding = { RefusesNewborn S.Store };

    fn load(&mut self, code: &LabCode, need: &Need) -> Result<Option<Slice>, KeeperFault> {
        self.part(code, need)
    }

    fn apply(&mut self, code: &LabCode, changes: Series<Change>) -> Result<(), KeeperFault> {
        let counted = self.counted.take();
        apply(
            self.alloc,
            &mut self.tables,
            &counted,
            code,
            changes.as_slice(),
        )?;
        self.counted = counted_after(counted, &changes);
        Ok(())
    }

    fn found(&mut self, newborn: Newborn) -> Result<(), PlacingFault> {
        self.counted = None;
        found(self.alloc, &mut self.tables, newborn)
    }

    ghost kept = { λ keeper code lab honest live reached.
        own_code (reached.kept honest live) code lab };

    ghost kept_left = { λ keeper held code lab honest live safe left.
        own_code_left left.0 held left.2 code lab };

    ghost still = { λ _. refl };

    ghost rests_on = { λ first next last same again. again ∙ same };

    ghost rests_unchanged = { λ first next code same. inl (refl, same) };

    ghost moves_on = { λ first next last code changes same.
        made_after_rest _ _ _ code changes same };
}
