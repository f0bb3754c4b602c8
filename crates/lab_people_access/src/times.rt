//! Spans of time between moments.
ghost use Rattle.std.specs.Prelude.{◌≡◌, ◌-◌, ◌/◌};

use lab_forms_texts::Moment;

/// Returns the whole seconds from the earlier moment to the later one; 0 if it isn't later.
pub(crate) fn seconds_since(earlier: Moment, later: Moment) -> u64
    ensures { result ≡ later - earlier }
{
    let (from, to) = (earlier.seconds(), later.seconds());
    if to <= from {
        return 0;
    }
    (to - from) as u64
}

/// Returns the days from the day of the earlier moment to the day of the later one; 0 if it isn't
/// later.
pub(crate) fn days_since(earlier: Moment, later: Moment) -> u64
    ensures { result ≡ later / 86400 - earlier / 86400 }
{
    later.day().saturating_sub(earlier.day())
}
