//! The rows of a version: what people entered, in order.
ghost use Rattle.std.specs.Prelude.{◌≡◌, ◌++◌, ◌∷◌, [], IfOk, OnOk, OnErr};

use lab_forms_texts::{Key, Moment, Note, OutOfMemory, PersonCode, Unit};
use std::alloc::AllocError;
use std::marker::Model;

/// A row of a version: a value that a person entered under a key.
#[derive(Debug)]
pub struct EntryRow {
    /// The field's key.
    pub key: Key,
    /// The value as it was written.
    pub value: Note,
    /// The value's unit.
    pub unit: Unit,
    /// Who entered the value.
    pub person: PersonCode,
    /// When the value was entered.
    pub moment: Moment,
    /// Why the value replaces an earlier one.
    pub reason: Option<Note>,
}

// `drop` is written out, so that a caller doesn't prove again how each part is dropped.
impl Drop for EntryRow {
    fn drop(self) {
        let EntryRow {
            key: _,
            value: _,
            unit: _,
            person: _,
            moment: _,
            reason: _,
        } = self;
    }
}

impl EntryRow {
    /// A copy.
    ///
    /// # Errors
    /// Memory ran out.
    pub fn copy(&self) -> Result<EntryRow, OutOfMemory>
        ensures { IfOk result (λ copy. copy ≡ self.now) }
    {
        Ok(self.clone()?)
    }
}

impl Clone for EntryRow {
    ghost use Rattle.std.specs.Prelude.{◌≡◌};

    ghost is_clone = { λ row copy. copy ≡ row };

    fn clone(&self) -> Result<EntryRow, AllocError> {
        let key = self.key.clone()?;
        let value = self.value.clone()?;
        let unit = self.unit.clone()?;
        let person = self.person.clone()?;
        let reason = self.reason.clone()?;
        Ok(EntryRow {
            key,
            value,
            unit,
            person,
            moment: self.moment,
            reason,
        })
    }
}

/// Rows in the order in which they were entered.
///
/// A contract sees them as the list of the rows.
#[derive(Debug)]
pub struct EntryRows {
    rows: Vec<EntryRow>,
}

// `drop` is written out, so that a caller doesn't prove again how each part is dropped.
impl Drop for EntryRows {
    fn drop(self) {
        let EntryRows { rows: _ } = self;
    }
}

impl Model for EntryRows {
    ghost use Rattle.std.specs.Prelude.{List};
    ghost use Rattle.lab_seal_versions.specs.declared.rows.EntryRow.{EntryRow};

    ghost Value = { List EntryRow };

    ghost view = { λ list. list.rows.items };
}

impl EntryRows {
    /// Makes rows of a list.
    pub fn new(rows: Vec<EntryRow>) -> EntryRows
        ensures { result ≡ rows.items }
    {
        EntryRows { rows }
    }

    /// The rows.
    pub fn rows(&self) -> &[EntryRow]
        ensures { result.now ≡ self.now }
    {
        self.rows.as_slice()
    }

    /// Adds a row at the end.
    ///
    /// # Errors
    /// Memory ran out.
    pub fn push(&mut self, row: EntryRow) -> Result<(), OutOfMemory>
        ensures added { OnOk result (self.new ≡ self.old ++ row ∷ []) }
        ensures same { OnErr result (self.new ≡ self.old) }
    {
        Ok(self.rows.push(row)?)
    }

    /// Returns the list of the rows.
    pub fn into_rows(self) -> Vec<EntryRow>
        ensures { result.items ≡ self }
    {
        let EntryRows { rows: list } = self;
        list
    }

    /// A copy.
    ///
    /// # Errors
    /// Memory ran out.
    pub fn copy(&self) -> Result<EntryRows, OutOfMemory>
        ensures { IfOk result (λ copy. copy ≡ self.now) }
    {
        Ok(self.clone()?)
    }
}

impl Clone for EntryRows {
    ghost use Rattle.std.specs.Prelude.{◌≡◌};

    ghost is_clone = { λ rows copy. copy ≡ rows };

    fn clone(&self) -> Result<EntryRows, AllocError> {
        let rows = self.rows.clone()?;
        Ok(EntryRows { rows })
    }
}
