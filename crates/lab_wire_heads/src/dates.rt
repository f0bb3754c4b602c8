//! The date in a reply.

ghost use Rattle.std.specs.Prelude.{◌≡◌};
ghost use Rattle.httpdate.specs.Date.{date_text};
ghost use Rattle.lab_wire_heads.specs.Dates.{imf_fixdate};

use httpdate::HttpDate;
use lab_forms_texts::Moment;

/// Returns the date of a moment in the form that HTTP uses for dates.
pub fn http_date(moment: Moment) -> HttpDate
    ensures { date_text result ≡ imf_fixdate moment }
{
    HttpDate::from_unix_secs(moment.seconds() as u64).unwrap()
}
