//! Dates in values.
ghost use Rattle.std.specs.Prelude.{◌≡◌, ◌<◌};
ghost use Rattle.lab_forms.specs.Dates.{has_hyphens, is_calendar_day, is_date};

use crate::numbers::read_digits;
use jiff_core::civil::Date;

/// The length of a date's text, `YYYY-MM-DD`, in bytes.
const DATE_LEN: usize = 10;

fn has_date_hyphens(text: &[u8]) -> bool
    ensures { result ≡ has_hyphens text.now }
{
    text.len() == DATE_LEN && text[4] == b'-' && text[7] == b'-'
}

fn is_gregorian(year: u64, month: u64, day: u64) -> bool
    requires year { year < 10000 }
    requires month { month < 100 }
    requires day { day < 100 }
    ensures { result ≡ is_calendar_day year month day }
{
    year >= 1 && Date::new(year as i16, month as i8, day as i8).is_ok()
}

/// Whether a text is `YYYY-MM-DD`, and the Gregorian calendar has that day, in a year from 1 to
/// 9999.
pub fn is_date_text(text: &[u8]) -> bool
    ensures { result ≡ is_date text.now }
{
    if !has_date_hyphens(text) {
        return false;
    }
    let year = read_digits(4, &text[0..4]);
    let month = read_digits(2, &text[5..7]);
    let day = read_digits(2, &text[8..10]);
    let (Some(year), Some(month), Some(day)) = (year, month, day) else {
        return false;
    };
    is_gregorian(year, month, day)
}
