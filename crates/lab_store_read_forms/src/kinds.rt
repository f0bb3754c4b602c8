//! The values that a field takes, read from the columns of its row.

ghost use Rattle.std.specs.Prelude.{◌≡◌, [], IfOk, IfErr, unwrap_or};
ghost use Rattle.lab_store_tables.specs.Columns.{kind_in};
ghost use Rattle.lab_forms.specs.declared.kinds.Kind.TheVariants.{Text as text_kind};
ghost use Rattle.lab_store_read_forms.specs.Private.Kinds.{number_kind};
ghost use Rattle.lab_store_read_forms.specs.Kinds.{is_choice, kind_with};
ghost use Rattle.lab_store_read_forms.specs.KindsShown.{kind_cells};
ghost use Rattle.lab_store_read.specs.Cells.{storage};
ghost use Rattle.lab_store_read_forms.specs.Readable.{HasNumber, HasSize, IsOfKind, HasKind};

use crate::cells::bound_if;
use lab_forms::{Choices, Kind};
use lab_forms_texts::{Keys, Name, Text};
use lab_store_read::cells::{small_if, text_if, text_of};
use lab_store_read::{BadStore, ReadFault};
use sqlite::Row;
use std::alloc::Global;

// A number.
fn number_of_row(alloc: Global, row: &Row) -> Result<Kind, ReadFault>
    ensures value { IfOk result (λ kind. kind ≡ number_kind (kind_cells row.now)) }
    ensures fault { IfErr result (λ fault. fault ≡ storage → ¬ HasNumber row.now) }
{
    let Some(decimals) = small_if(row, 6)? else {
        return Err(ReadFault::Refused(BadStore));
    };
    let Some(unit) = text_if(alloc, row, 5)? else {
        return Err(ReadFault::Refused(BadStore));
    };
    let min = bound_if(alloc, row, 7)?;
    let max = bound_if(alloc, row, 8)?;
    Ok(Kind::Number {
        unit,
        decimals,
        min,
        max,
    })
}

// A text.
fn text_of_row(row: &Row) -> Result<Kind, ReadFault>
    ensures value { IfOk result (λ kind. kind ≡ text_kind (unwrap_or (kind_cells row.now).size 0)) }
    ensures fault { IfErr result (λ fault. fault ≡ storage → ¬ HasSize row.now) }
{
    match small_if(row, 9)? {
        Some(size) => Ok(Kind::Text { size }),
        None => Err(ReadFault::Refused(BadStore)),
    }
}

// The values that a field takes, by its word and the other columns. It is a fault of the store if
// the word is of no kind.
fn kind_by(alloc: Global, row: &Row, word: &str) -> Result<Kind, ReadFault>
    ensures value { IfOk result
        (λ kind. kind ≡ kind_in (record (kind_cells row.now) { word = word.now }) []) }
    ensures fault { IfErr result (λ fault. fault ≡ storage → ¬ IsOfKind word.now row.now) }
{
    match word {
        "number" => number_of_row(alloc, row),
        "text" => text_of_row(row),
        "choice" => Ok(Kind::Choice {
            choices: Choices::new(Vec::new(alloc)),
        }),
        "date" => Ok(Kind::Date),
        "yesno" => Ok(Kind::YesNo),
        _ => Err(ReadFault::Refused(BadStore)),
    }
}

/// Returns the values that the field with this row takes; a choice has no names yet.
///
/// # Errors
/// The store failed, a row isn't one that this program could have written, or memory ran out.
pub fn kind_of_row(alloc: Global, row: &Row) -> Result<Kind, ReadFault>
    ensures value { IfOk result (λ kind. kind ≡ kind_in (kind_cells row.now) []) }
    ensures fault { IfErr result (λ fault. fault ≡ storage → ¬ HasKind row.now) }
{
    let word: Text<Keys> = text_of(alloc, row, 4)?;
    kind_by(alloc, row, word.as_str())
}

/// Returns whether a field's value is chosen among names.
pub fn is_choice(kind: &Kind) -> bool
    ensures { result ≡ is_choice kind.now }
{
    match kind {
        Kind::Choice { .. } => true,
        Kind::Number { .. } | Kind::Text { .. } | Kind::Date | Kind::YesNo => false,
    }
}

/// Returns the kind, with the names if it is a choice.
pub fn kind_with(kind: Kind, names: Vec<Name>) -> Kind
    ensures { result ≡ kind_with kind names.items }
{
    match &kind {
        Kind::Choice { .. } => Kind::Choice {
            choices: Choices::new(names),
        },
        Kind::Number { .. } | Kind::Text { .. } | Kind::Date | Kind::YesNo => kind,
    }
}
