//! The changes that most requests make: the laboratory's last moment, some that say nothing of it
//! and add no person, and a row of its trail.

ghost use Rattle.std.specs.Prelude.{◌≡◌, IfSome};
ghost use Rattle.std.specs.List.{list_all};
ghost use Rattle.lab_store_write_changes.specs.Framed.{spares_last, IsFramed};

use lab_forms_texts::Moment;
use lab_records_kept::{Change, TrailRow};

/// The changes that most requests make.
#[derive(Clone, Copy)]
pub(crate) struct Framed<'a> {
    /// The last moment.
    pub moment: Moment,
    /// The changes between these two.
    pub between: &'a [Change],
    /// The row of the trail.
    pub told: &'a TrailRow,
}

// Whether a change is one that says nothing of the last moment, and after which who gives the
// command is known as before.
fn spares_last(change: &Change) -> bool
    ensures { result ≡ spares_last change.now }
{
    match change {
        Change::PersonSet(_)
        | Change::SessionAdded(_)
        | Change::SessionSet(_)
        | Change::FormAdded(_)
        | Change::RecordAdded(_)
        | Change::RowAdded { .. }
        | Change::VersionOpened { .. }
        | Change::SignatureAdded { .. } => true,
        Change::Last(_)
        | Change::Strays(_)
        | Change::PersonAdded(_)
        | Change::SessionsClosed { .. }
        | Change::TrailAdded(_) => false,
    }
}

// Whether all changes do so.
fn all_spare_last(changes: &[Change]) -> bool
    ensures { result ≡ list_all spares_last changes.now }
{
    changes.iter().all(|change| spares_last(change))
}

/// Returns the changes in this form, if they are those that most requests make.
pub(crate) fn frame_of(changes: &[Change]) -> Option<Framed<'_>>
    ensures { IfSome result (λ one.
        IsFramed one.moment one.between.now one.told.now changes.now) }
{
    let Some((Change::Last(moment), others)) = changes.split_first() else {
        return None;
    };
    let Some((Change::TrailAdded(told), between)) = others.split_last() else {
        return None;
    };
    if !all_spare_last(between) {
        return None;
    }
    Some(Framed {
        moment: *moment,
        between,
        told,
    })
}
