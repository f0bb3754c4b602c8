//! Rows of the trail, as JSON.
ghost use Rattle.std.specs.Prelude.{◌≡◌, IfOk};
ghost use Rattle.serde_json.specs.View.{view};
ghost use Rattle.lab_wire_replies.specs.Trails.{trail_data};

use crate::members::{moment, object_of, object_with, ordinal, text, text_if_any};
use crate::parts::{Shown, list_of};
use lab_forms_texts::OutOfMemory;
use lab_records_kept::TrailRow;
use serde_json::Value;
use std::alloc::Global;

/// The group of the rows of the trail.
pub struct OfTrails;

impl Shown<OfTrails> for TrailRow {
    ghost use Rattle.lab_wire_replies.specs.Trails.{trail_row_data};

    ghost data_of = { trail_row_data };

    fn value(&self, alloc: Global) -> Result<Value, OutOfMemory> {
        object_of(
            alloc,
            &[
                text("action", self.action.word()),
                moment("moment", self.moment),
                ordinal("number", self.number),
                text_if_any("person", &self.person),
                text("subject", self.subject.as_str()),
            ],
        )
    }
}

/// Returns rows of the trail, as JSON.
///
/// # Errors
/// Memory ran out.
pub fn trail_value(alloc: Global, rows: &[TrailRow]) -> Result<Value, OutOfMemory>
    ensures { IfOk result (λ value. view value ≡ trail_data rows.now) }
{
    let rows = list_of::<OfTrails, _>(alloc, rows)?;
    object_with(alloc, &[], "trail", rows)
}
