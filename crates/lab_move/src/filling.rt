//! The laboratories of an old file, carried into a new one, one after the other, and the new file
//! finished.

ghost use Rattle.std.specs.Prelude.{◌≡◌, ◌⊎◌, length, All, OnOk, IfOk, IfErr, IsTrue, Some};
ghost use Rattle.sqlite.specs.Held.{state};
ghost use Rattle.lab_records_kept.specs.declared.labs.Lab.{Lab as AnyLab};
ghost use Rattle.lab_records_kept.specs.Bound.{IsBound};
ghost use Rattle.lab_records_kept.specs.Dual.{IsDual};
ghost use Rattle.sqlite.specs.State.{HasCleanDisk};
ghost use Rattle.lab_store_tables.specs.Ready.{IsAtRest, IsMadeBy, tables_of};
ghost use Rattle.lab_store_tables.specs.Rows.{Tables};
ghost use Rattle.lab_move_tables.specs.Private.Reading.{ReadsBy};
ghost use Rattle.lab_move_tables.specs.Reading.{ReadsOld};
ghost use Rattle.lab_move_tables.specs.Standing.{StandsBy};
ghost use Rattle.lab_move_write.specs.Causes.{NamingEndsForCause};
ghost use Rattle.lab_move_write.specs.Commits.{MakesAtOnce};
ghost use Rattle.lab_move_write.specs.Unfinished.{Finishes, IsBeingFilled};
ghost use Rattle.lab_move_write.specs.Namings.{NamesSchema};
ghost use Rattle.lab_move_write.specs.Carrying.{Carries};
ghost use Rattle.lab_move_read_people.specs.declared.faults.KeptFault.TheVariants.{NotKept, Storage as Unread};
ghost use Rattle.lab_move_read.specs.Laboratories.{codes_of};
ghost use Rattle.lab_store_files.specs.declared.faults.FileFault.TheVariants.{Storage};
ghost use Rattle.lab_store_write.specs.Transactions.{HasOurTables};
ghost use Rattle.lab_move.specs.Causes.{IsFillingRefused, IsMoveUnfinished, IsRefusedLab, IsUnplaced, IsUnplacedOf, IsUnwritten, StopsAtEnd, StopsAtLab};
ghost use Rattle.lab_move.specs.declared.faults.MoveFault.TheVariants.{File};
ghost use Rattle.lab_move.specs.Counting.{HasAsMany};
ghost use Rattle.lab_move.specs.Private.Moving.{Blames, BlamesFirst, BlamesFirstOfAll, CarriesFrom, FillsAll, AreCounted, IsWholeOf};
ghost use Rattle.lab_move.specs.Moving.{Fills, HasThese, IsBegun, ReadsOldAs, IsSoundIn, IsSoundLab, IsUnsoundIn, IsWhole};

use crate::counting::compare_counts;
use crate::faults::MoveFault;
use crate::testing::{not_sound, test_lab};
use lab_forms_texts::LabCode;
use lab_move_read::{KeptFault, codes, whole};
use lab_move_tables::{ChainedLab, Older};
use lab_move_write::{MoveProgress, finish, place_lab};
use lab_records_kept::Lab;
use lab_store_files::FileFault;
use lab_store_read::Readable;
use sqlite::{Alter, Connection};
use std::alloc::Global;

// Places a laboratory that was tried.
fn place_tried<T: Alter, P: MoveProgress>(
    new: &mut Connection<T>,
    lab: &Lab,
    progress: &mut P,
) -> Result<(), MoveFault>
    requires at_rest { IsAtRest (state T.Store new.old) }
    ensures placed { IsSoundLab lab.now → MakesAtOnce
        (Carries lab.now (state T.Store new.old).now) result
        (state T.Store new.old) (state T.Store new.new) }
    ensures fault { IfErr result (Blames (λ _. ⊥)) }
    ensures cause { HasOurTables (state T.Store new.old) → HasCleanDisk (state T.Store new.new) →
        IfErr result (λ fault. fault ≡ File Storage →
        IsUnwritten T.Store lab.now new.old new.new) }
{
    place_lab(new, lab, progress)?;
    Ok(())
}

// Tries a laboratory that was read, and places it.
fn place_sound<T: Alter, P: MoveProgress>(
    alloc: Global,
    new: &mut Connection<T>,
    code: &LabCode,
    lab: &ChainedLab,
    progress: &mut P,
) -> Result<(), MoveFault>
    requires at_rest { IsAtRest (state T.Store new.old) }
    ensures placed { MakesAtOnce
        (λ db. IsSoundLab lab.now × Carries lab.now (state T.Store new.old).now db) result
        (state T.Store new.old) (state T.Store new.new) }
    ensures sound { OnOk result (IsSoundLab lab.now) }
    ensures fault { IfErr result
        (Blames (λ one. (one ≡ code.now) × ¬ (IsBound lab.now × IsDual lab.now))) }
    ensures cause { HasOurTables (state T.Store new.old) → HasCleanDisk (state T.Store new.new) →
        IfErr result (λ fault. fault ≡ File Storage →
        IsUnplaced T.Store lab.now new.old new.new) }
{
    test_lab(alloc, code, lab)?;
    place_tried(new, lab.lab(), progress)
}

// Places a laboratory that was read, where there is one.
fn place_found<T: Alter, P: MoveProgress>(
    alloc: Global,
    new: &mut Connection<T>,
    code: &LabCode,
    found: Option<ChainedLab>,
    progress: &mut P,
) -> Result<(), MoveFault>
    requires at_rest { IsAtRest (state T.Store new.old) }
    ensures placed { MakesAtOnce (λ db. (lab : AnyLab) × (found ≡ Some lab) × IsSoundLab lab
        × Carries lab (state T.Store new.old).now db) result
        (state T.Store new.old) (state T.Store new.new) }
    ensures sound { OnOk result ((lab : AnyLab) × (found ≡ Some lab) × IsSoundLab lab) }
    ensures fault { IfErr result (Blames (λ one. (one ≡ code.now)
        × (lab : AnyLab) × (found ≡ Some lab) × ¬ (IsBound lab × IsDual lab))) }
    ensures cause { HasOurTables (state T.Store new.old) → HasCleanDisk (state T.Store new.new) →
        IfErr result (λ fault. fault ≡ File Storage →
        IsUnplacedOf T.Store found new.old new.new) }
{
    match found {
        Some(lab) => place_sound(alloc, new, code, &lab, progress),
        None => Err(MoveFault::File(FileFault::Storage)),
    }
}

// Why a laboratory was not read.
fn unread(code: &LabCode, fault: KeptFault) -> MoveFault
    ensures blames { Blames (λ one. (one ≡ code.now) × (fault ≡ NotKept)) result }
    ensures told { result ≡ File Storage → fault ≡ Unread }
{
    match fault {
        KeptFault::NotKept => not_sound(code),
        KeptFault::Storage => MoveFault::File(FileFault::Storage),
        KeptFault::Memory => MoveFault::File(FileFault::Memory),
    }
}

// Reads the laboratory of the code, and places it.
fn move_lab<D: Readable, T: Alter, P: MoveProgress>(
    alloc: Global,
    old: &mut D,
    older: Older,
    new: &mut Connection<T>,
    code: &LabCode,
    progress: &mut P,
) -> Result<(), MoveFault>
    requires at_rest { IsAtRest (state T.Store new.old) }
    ensures reads { ReadsBy older (λ t _. IsSoundIn t code.now)
        (D.state old.old) (D.state old.new) result }
    ensures carries { MakesAtOnce (CarriesFrom (StandsBy older) (D.state old.old)
        (D.state old.new) code.now (state T.Store new.old).now) result (state T.Store new.old) (state T.Store new.new) }
    ensures fault { IfErr result (Blames (λ one. (one ≡ code.now)
        × ((t : Tables) → ReadsOldAs (StandsBy older) (D.state old.old) (D.state old.new) t →
        IsUnsoundIn t code.now))) }
    ensures cause { HasCleanDisk (D.state old.new) → HasOurTables (state T.Store new.old) →
        HasCleanDisk (state T.Store new.new) → IfErr result (λ fault. fault ≡ File Storage →
        IsRefusedLab T.Store older code.now (D.state old.old) (D.state old.new) new.old new.new) }
{
    match whole(alloc, old, older, code) {
        Ok(found) => place_found(alloc, new, code, found, progress),
        Err(fault) => Err(unread(code, fault)),
    }
}

// Moves the laboratories of the codes, one after the other.
fn move_each<D: Readable, T: Alter, P: MoveProgress>(
    alloc: Global,
    old: &mut D,
    older: Older,
    new: &mut Connection<T>,
    codes: &[LabCode],
    progress: &mut P,
) -> Result<(), MoveFault>
    requires at_rest { IsAtRest (state T.Store new.old) }
    ensures reads { ReadsBy older (λ t _. All (IsSoundIn t) codes.now)
        (D.state old.old) (D.state old.new) result }
    ensures fills { Fills (HasThese (StandsBy older) (D.state old.old) (D.state old.new)
        codes.now) result (state T.Store new.old) (state T.Store new.new) }
    ensures fault { IfErr result (BlamesFirst (StandsBy older) (D.state old.old)
        (D.state old.new) codes.now) }
    ensures cause { HasCleanDisk (D.state old.new) → IsBegun (state T.Store new.old).now →
        HasCleanDisk (state T.Store new.new) → IfErr result (λ fault. fault ≡ File Storage →
        StopsAtLab D.state T.Store older codes.now old.old old.new new.old new.new) }
{
    for place in 0..codes.len() {
        let code = &codes[place];
        progress.tell_lab(code, place, codes.len());
        move_lab(alloc, old, older, new, code, progress)?;
    }
    Ok(())
}

// Names the schema of the new file, and counts the laboratories.
fn finish_with<T: Alter>(new: &mut Connection<T>, codes: &[LabCode]) -> Result<u64, MoveFault>
    requires at_rest { IsAtRest (state T.Store new.old) }
    ensures finished { MakesAtOnce (Finishes (state T.Store new.old).now) result
        (state T.Store new.old) (state T.Store new.new) }
    ensures named { MakesAtOnce (IsMadeBy NamesSchema (state T.Store new.old)) result
        (state T.Store new.old) (state T.Store new.new) }
    ensures count { IfOk result (λ count. count ≡ length codes.now) }
    ensures fault { IfErr result (Blames (λ _. ⊥)) }
    ensures cause { NamingEndsForCause T.Store (λ fault. fault ≡ File Storage) new.old new.new result }
{
    finish(new)?;
    Ok(codes.len() as u64)
}

// Names the schema of the new file, where no row of the old one was left behind.
fn finish_compared<D: Readable, T: Alter>(
    old: &mut D,
    new: &mut Connection<T>,
    codes: &[LabCode],
) -> Result<u64, MoveFault>
    requires at_rest { IsAtRest (state T.Store new.old) }
    ensures reads { ReadsOld (λ _ count. count ≡ length codes.now)
        (D.state old.old) (D.state old.new) result }
    ensures finished { MakesAtOnce (Finishes (state T.Store new.old).now) result
        (state T.Store new.old) (state T.Store new.new) }
    ensures counted { HasCleanDisk (D.state old.new) → HasCleanDisk (state T.Store new.new) →
        IsBeingFilled (state T.Store new.old).now →
        OnOk result (HasAsMany (D.state old.old).now (tables_of (state T.Store new.new))) }
    ensures fault { IfErr result (Blames (λ _. ⊥)) }
    ensures cause { HasCleanDisk (D.state old.new) → HasOurTables (state T.Store new.old) →
        HasCleanDisk (state T.Store new.new) → IfErr result (λ fault. fault ≡ File Storage →
        IsMoveUnfinished T.Store (D.state old.old) (D.state old.new) new.old new.new) }
{
    compare_counts(old, new)?;
    finish_with(new, codes)
}

// Moves the laboratories of the codes, and finishes the new file.
fn move_all<D: Readable, T: Alter, P: MoveProgress>(
    alloc: Global,
    old: &mut D,
    older: Older,
    new: &mut Connection<T>,
    codes: &[LabCode],
    progress: &mut P,
) -> Result<u64, MoveFault>
    requires at_rest { IsAtRest (state T.Store new.old) }
    ensures reads { ReadsBy older (AreCounted codes.now) (D.state old.old) (D.state old.new) result }
    ensures fills { FillsAll (IsWholeOf (StandsBy older) (D.state old.old) (D.state old.new)
        codes.now) result (state T.Store new.old) (state T.Store new.new) }
    ensures counted { HasCleanDisk (D.state old.new) → HasCleanDisk (state T.Store new.new) →
        IsTrue (state T.Store new.old).is_open → IsBegun (state T.Store new.old).now →
        OnOk result (HasAsMany (D.state old.old).now (tables_of (state T.Store new.new))) }
    ensures fault { IfErr result (BlamesFirst (StandsBy older) (D.state old.old)
        (D.state old.new) codes.now) }
    ensures cause { HasCleanDisk (D.state old.new) → IsBegun (state T.Store new.old).now →
        HasCleanDisk (state T.Store new.new) → IfErr result (λ fault. fault ≡ File Storage →
        StopsAtLab D.state T.Store older codes.now old.old old.new new.old new.new
        ⊎ StopsAtEnd D.state T.Store older codes.now old.old old.new new.old new.new) }
{
    move_each(alloc, old, older, new, codes, progress)?;
    finish_compared(old, new, codes)
}

/// Fills a new file with all laboratories of an old one, by a commit for each, and finishes it by
/// one more. Answers how many they are.
///
/// # Errors
/// The first laboratory that isn't sound, in the order of the codes' bytes; a row that belongs to
/// none; a refusal of the store of either; or out of memory.
pub(crate) fn fill<D: Readable, T: Alter, P: MoveProgress>(
    alloc: Global,
    old: &mut D,
    older: Older,
    new: &mut Connection<T>,
    progress: &mut P,
) -> Result<u64, MoveFault>
    requires at_rest { IsAtRest (state T.Store new.old) }
    ensures reads { ReadsBy older (λ t. AreCounted (codes_of t) t)
        (D.state old.old) (D.state old.new) result }
    ensures fills { FillsAll (IsWhole (StandsBy older) (D.state old.old) (D.state old.new))
        result (state T.Store new.old) (state T.Store new.new) }
    ensures counted { HasCleanDisk (D.state old.new) → HasCleanDisk (state T.Store new.new) →
        IsTrue (state T.Store new.old).is_open → IsBegun (state T.Store new.old).now →
        OnOk result (HasAsMany (D.state old.old).now (tables_of (state T.Store new.new))) }
    ensures fault { IfErr result (BlamesFirstOfAll (StandsBy older) (D.state old.old)
        (D.state old.new)) }
    ensures cause { HasCleanDisk (D.state old.new) → IsBegun (state T.Store new.old).now →
        HasCleanDisk (state T.Store new.new) → IfErr result (λ fault. fault ≡ File Storage →
        IsFillingRefused D.state T.Store older old.old old.new new.old new.new) }
{
    let codes = codes(alloc, old)?;
    move_all(alloc, old, older, new, codes.as_slice(), progress)
}
