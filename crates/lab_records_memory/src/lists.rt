//! The plain keeper: laboratories in memory.
ghost use Rattle.std.specs.Prelude.{◌≡◌, [], ◌∷◌, None, is_none, is_some, option_copied, position, IfOk, IfSome, IsSome, OnOk, OnErr};
ghost use Rattle.lab_records_kept.specs.declared.trails.Deed.TheVariants.{Found};
ghost use Rattle.lab_records_kept.specs.Births.{newborn_lab};
ghost use Rattle.lab_records_kept.specs.Changes.{added_person};
ghost use Rattle.lab_records_kept.specs.Parts.{part_of};
ghost use Rattle.lab_records_kept.specs.Trails.{trail_row_of};
ghost use Rattle.lab_records_keeper.specs.Worlds.{Changes};
ghost use Rattle.lab_records_memory.specs.Lists.{has_code, lab_of, ChangesInPlace};

use crate::held::Held;
use lab_records_changes::insert_person;
use lab_records_keeper::{Keeper, KeeperFault, PlacingFault};
use lab_records_kept::{
    Action, Change, Lab, LabCode, Need, Newborn, Ordinal, OutOfMemory, Person, Series, Slice,
    Subject, TrailRow,
};
use std::alloc::Global;
use std::marker::Model;

/// A list of laboratories in memory.
pub struct Lists {
    labs: Vec<Held>,
}

// `drop` is written out, so that a caller doesn't prove again how each part is dropped.
impl Drop for Lists {
    fn drop(self) {
        let Lists { labs: _ } = self;
    }
}

impl Model for Lists {
    ghost use Rattle.std.specs.Prelude.{List};
    ghost use Rattle.lab_records_kept.specs.declared.labs.Lab.{Lab as WholeLab};

    ghost Value = { List WholeLab };

    ghost view = { λ lists. lists.labs.items };
}

impl Lists {
    /// Makes a list without laboratories.
    pub fn new(alloc: Global) -> Lists
        ensures { result ≡ [] }
    {
        Lists {
            labs: Vec::new(alloc),
        }
    }
}

impl Keeper for Lists {
    ghost use Rattle.std.specs.Prelude.{◌≡◌, ◌++◌, ◌∷◌, [], refl};
    ghost use Rattle.std.proofs.Common.{◌∙◌};
    ghost use Rattle.lab_records_memory.specs.Lists.{world_of, ChangesInPlace};
    ghost use Rattle.lab_records_memory.specs.ListLaws.{own_code, own_code_left, unchanged_in_place, changed_after_rest};

    ghost world = { world_of };

    ghost rests = { λ old new. new ≡ old };

    ghost moves = { ChangesInPlace };

    ghost places = { λ old new lab. new ≡ old ++ lab ∷ [] };

    // A list has no store that could refuse.
    ghost refuses_load = { λ _ _ _ _. ⊥ };

    ghost refuses_changes = { λ _ _ _ _. ⊥ };

    ghost refuses_founding = { λ _ _ _. ⊥ };

    fn load(&mut self, code: &LabCode, need: &Need) -> Result<Option<Slice>, KeeperFault> {
        let alloc = *self.labs.allocator();
        Ok(part_in(&mut self.labs, alloc, code, need)?)
    }

    fn apply(&mut self, code: &LabCode, changes: Series<Change>) -> Result<(), KeeperFault> {
        let alloc = *self.labs.allocator();
        apply_in(&mut self.labs, alloc, code, changes)?;
        Ok(())
    }

    fn found(&mut self, newborn: Newborn) -> Result<(), PlacingFault> {
        let alloc = *self.labs.allocator();
        let Some(lab) = founded_beside(&self.labs, alloc, newborn)? else {
            return Err(PlacingFault::LabExists);
        };
        self.labs.push(Held::new(alloc, lab))?;
        Ok(())
    }

    ghost kept = { λ labs code lab honest live reached. own_code labs code lab };

    ghost kept_left = { λ labs held code lab honest live safe left.
        own_code_left labs held code lab left };

    ghost still = { λ _. refl };

    ghost rests_on = { λ first next last same again. again ∙ same };

    ghost rests_unchanged = { unchanged_in_place };

    ghost moves_on = { changed_after_rest };
}

// The laboratory with the code, if there is one.
fn held_of<'a>(labs: &'a [Held], code: &LabCode) -> Option<&'a Held>
    ensures { option_copied result ≡ lab_of labs.now code.now }
{
    labs.iter().find(|held| held.has_code(code))
}

// The place of the laboratory with the code, if there is one.
fn place_of(labs: &[Held], code: &LabCode) -> Option<usize>
    ensures { result ≡ position (has_code code.now) labs.now }
{
    labs.iter().position(|held| held.has_code(code))
}

// The part that is needed of the laboratory with the code, if there is one. Fails only if memory
// runs out, and only if there is that laboratory.
fn part_in(
    labs: &mut Vec<Held>,
    alloc: Global,
    code: &LabCode,
    need: &Need,
) -> Result<Option<Slice>, OutOfMemory>
    ensures part { IfOk result (λ found.
        found ≡ part_of need.now (lab_of labs.old.items code.now)) }
    ensures memory { OnErr result (IsSome (lab_of labs.old.items code.now)) }
    ensures same { labs.new.items ≡ labs.old.items }
{
    let Some(place) = place_of(labs, code) else {
        return Ok(None);
    };
    let held = &mut labs[place];
    let slice = held.part(alloc, need)?;
    Ok(Some(slice))
}

// Makes the changes of the laboratory with the code, if there is one. Fails only if memory runs
// out, and only if there is that laboratory.
fn apply_in(
    labs: &mut Vec<Held>,
    alloc: Global,
    code: &LabCode,
    changes: Series<Change>,
) -> Result<(), OutOfMemory>
    ensures changed { OnOk result (Changes code.now changes (lab_of labs.old.items)
        (lab_of labs.new.items)) }
    ensures place { OnOk result (ChangesInPlace labs.old.items labs.new.items code.now changes) }
    ensures err { OnErr result (labs.new.items ≡ labs.old.items) }
    ensures memory { OnErr result (IsSome (lab_of labs.old.items code.now)) }
{
    let Some(place) = place_of(labs, code) else {
        return Ok(());
    };
    let held = &mut labs[place];
    held.apply(alloc, changes)?;
    Ok(())
}

// The founded laboratory, if no laboratory has its code. Fails only if memory runs out, and only if
// no laboratory has the code.
fn founded_beside(
    labs: &[Held],
    alloc: Global,
    newborn: Newborn,
) -> Result<Option<Lab>, OutOfMemory>
    ensures lab { IfOk result (λ found. IfSome found (λ lab. lab ≡ newborn_lab newborn)) }
    ensures alone { IfOk result (λ found.
        is_some (lab_of labs.now newborn.code) ≡ is_none found) }
    ensures memory { OnErr result (lab_of labs.now newborn.code ≡ None) }
{
    if held_of(labs, &newborn.code).is_some() {
        drop(newborn);
        return Ok(None);
    }
    match founded_lab(alloc, newborn) {
        Ok(lab) => Ok(Some(lab)),
        Err(error) => Err(error),
    }
}

// The founded laboratory.
fn founded_lab(alloc: Global, newborn: Newborn) -> Result<Lab, OutOfMemory>
    ensures { IfOk result (λ lab. lab ≡ newborn_lab newborn) }
{
    let trail = first_trail(alloc, &newborn)?;
    let Newborn {
        code,
        name,
        moment,
        first,
        second,
        third,
    } = newborn;
    let persons = founders(alloc, first, second, third)?;
    Ok(Lab {
        last: moment,
        strays: 0,
        sessions: Series::new(alloc),
        forms: Series::new(alloc),
        records: Series::new(alloc),
        code,
        name,
        persons,
        trail,
    })
}

// The founders, in the order of their codes.
fn founders(
    alloc: Global,
    first: Person,
    second: Person,
    third: Person,
) -> Result<Series<Person>, OutOfMemory>
    ensures { IfOk result (λ persons.
        persons ≡ added_person third (added_person second (added_person first []))) }
{
    let mut persons = Series::new(alloc);
    insert_person(alloc, &mut persons, first)?;
    insert_person(alloc, &mut persons, second)?;
    insert_person(alloc, &mut persons, third)?;
    Ok(persons)
}

// The first row of the trail, which states that the laboratory was founded.
fn first_trail(alloc: Global, newborn: &Newborn) -> Result<Series<TrailRow>, OutOfMemory>
    ensures { IfOk result (λ trail.
        trail ≡ trail_row_of 1 newborn.now.moment None (Found newborn.now.code) ∷ []) }
{
    let subject = Subject::new(String::from_str(alloc, newborn.code.as_str())?);
    let mut trail = Series::new(alloc);
    trail.push(TrailRow {
        number: Ordinal::FIRST,
        moment: newborn.moment,
        person: None,
        action: Action::Found,
        subject,
    })?;
    Ok(trail)
}
