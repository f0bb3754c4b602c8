//! One laboratory in memory, with the changes that still have to be made.
ghost use Rattle.std.specs.Prelude.{◌≡◌, ◌-◌, ◌<◌, [], length, OnOk, OnErr, IfOk};
ghost use Rattle.lab_records_kept.specs.Changes.{changed};
ghost use Rattle.lab_records_kept.specs.Parts.{part};
ghost use Rattle.lab_records_memory.specs.Lists.{has_code};

use lab_records_changes::change;
use lab_records_kept::{Change, Lab, LabCode, Need, OutOfMemory, Series, Slice};
use std::alloc::Global;
use std::marker::Model;

/// A laboratory, and changes that were taken but aren't made yet, the first change first.
///
/// A contract sees the laboratory as it is after these changes. Changes are made at once; some are
/// left only if memory ran out in the middle, and the next call makes them before anything else.
pub struct Held {
    lab: Lab,
    left: Vec<Change>,
}

// `drop` is written out, so that a caller doesn't prove again how each part is dropped.
impl Drop for Held {
    fn drop(self) {
        let Held { lab: _, left: _ } = self;
    }
}

impl Model for Held {
    ghost use Rattle.lab_records_kept.specs.declared.labs.Lab.{Lab as WholeLab};
    ghost use Rattle.lab_records_kept.specs.Changes.{changed};

    ghost Value = { WholeLab };

    ghost view = { λ held. changed held.lab held.left.items };
}

impl Held {
    /// Makes a laboratory without changes that are left.
    pub fn new(alloc: Global, lab: Lab) -> Held
        ensures { result ≡ lab }
    {
        Held {
            left: Vec::new(alloc),
            lab,
        }
    }

    /// Whether the laboratory has the code. No change alters the code.
    #[tactic(auto, using(crate::proofs::Listing::code_kept))]
    pub fn has_code(&self, code: &LabCode) -> bool
        ensures { result ≡ has_code code.now self.now }
    {
        self.lab.code.as_str() == code.as_str()
    }

    /// Returns the part of the laboratory that is needed. Fails only if memory runs out.
    ///
    /// # Errors
    /// Memory ran out.
    pub fn part(&mut self, alloc: Global, need: &Need) -> Result<Slice, OutOfMemory>
        ensures part { IfOk result (λ slice. slice ≡ part need.now self.old) }
        ensures same { self.new ≡ self.old }
    {
        settle(alloc, &mut self.lab, &mut self.left)?;
        crate::part(alloc, &self.lab, need)
    }

    /// Takes all the changes or none. Fails only if memory runs out for changes that were left; the
    /// laboratory is then as before.
    ///
    /// # Errors
    /// Memory ran out.
    pub fn apply(&mut self, alloc: Global, changes: Series<Change>) -> Result<(), OutOfMemory>
        ensures ok { OnOk result (self.new ≡ changed self.old changes) }
        ensures err { OnErr result (self.new ≡ self.old) }
    {
        settle(alloc, &mut self.lab, &mut self.left)?;
        self.left = changes.into_vec();
        // Changes for which there is no memory are left for the next call.
        let _ = settle(alloc, &mut self.lab, &mut self.left);
        Ok(())
    }
}

// Makes the changes that are left, as far as there is memory for them. Fails only if memory runs
// out, and only if changes were left.
fn settle(alloc: Global, lab: &mut Lab, left: &mut Vec<Change>) -> Result<(), OutOfMemory>
    ensures same { changed lab.new left.new.items ≡ changed lab.old left.old.items }
    ensures ok { OnOk result (left.new.items ≡ []) }
    ensures memory { OnErr result (0 < length left.old.items) }
{
    for _ in 0..left.len() {
        make_first(alloc, lab, left)?;
    }
    Ok(())
}

// Makes the first change that is left.
fn make_first(alloc: Global, lab: &mut Lab, left: &mut Vec<Change>) -> Result<(), OutOfMemory>
    ensures same { changed lab.new left.new.items ≡ changed lab.old left.old.items }
    ensures ok { OnOk result (length left.new.items ≡ length left.old.items - 1) }
    ensures memory { OnErr result (0 < length left.old.items) }
{
    if left.is_empty() {
        return Ok(());
    }
    change(alloc, lab, &left[0])?;
    drop(left.remove(0));
    Ok(())
}
