//! Moments, each with exactly one text.
ghost use Rattle.std.specs.Prelude.{◌≡◌, ◌≢◌, ℕ, ◌+◌, ◌<◌, ◌≤◌, pos, length, IsTrue, IfOk, IfErr};
ghost use Rattle.lab_forms_texts.specs.Calendar.{day_of, year_of, month_of, day_of_month, two_digits};
ghost use Rattle.lab_forms_texts.specs.Moment.{is_moment, last_day, moment_text, two_at, moment_of, IsNoMoment};
ghost use Rattle.std.specs.Option.{ok_or};

use crate::MomentFault;
use jiff_core::civil::{Date, DateTime, Time};
use std::marker::Model;

/// The seconds of the last moment, 9999-12-31T23:59:59Z.
pub const LAST_SECOND: u64 = 253_402_300_799;

/// The length of a moment's text in bytes.
const TEXT_LEN: usize = 20;

const SECONDS_IN_DAY: u64 = 86_400;

/// The number of days from the first date of `jiff` to 1970-01-01.
const DAYS_BEFORE_EPOCH: u32 = 4_371_587;

/// A whole second from 1970-01-01T00:00:00Z to 9999-12-31T23:59:59Z, in UTC without leap seconds.
///
/// A contract sees it as the number of seconds since 1970-01-01T00:00:00Z.
#[derive(Clone, Copy, Debug, PartialEq, Eq, PartialOrd, Ord)]
pub struct Moment {
    seconds: u64,
}

impl Model for Moment {
    ghost use Rattle.std.specs.Prelude.{ℕ, IsTrue};
    ghost use Rattle.lab_forms_texts.specs.Moment.{is_moment};

    ghost Value = { ℕ };

    ghost view = { λ moment. moment.seconds };

    ghost invariant = { λ moment. IsTrue (is_moment moment.seconds) };

    ghost inverse = { λ n. record { seconds = n } };
}

impl Moment {
    /// Makes the moment that is this number of seconds after 1970-01-01T00:00:00Z.
    ///
    /// # Errors
    /// `BadMoment` if no moment has this number.
    pub fn from_seconds(seconds: i64) -> Result<Moment, MomentFault>
        ensures value { IfOk result (λ moment. IsTrue (is_moment moment) × (seconds ≡ pos moment)) }
        ensures fault { IfErr result (λ _. (n : ℕ) → IsTrue (is_moment n) → seconds ≢ pos n) }
    {
        if seconds < 0 || seconds as u64 > LAST_SECOND {
            return Err(MomentFault::BadMoment);
        }
        Ok(Moment {
            seconds: seconds as u64,
        })
    }

    /// Returns the seconds since 1970-01-01T00:00:00Z.
    pub fn seconds(&self) -> i64
        ensures value { result ≡ pos self.now }
        ensures in_range { IsTrue (is_moment self.now) }
    {
        self.seconds as i64
    }

    /// Returns the whole days since 1970-01-01.
    pub fn day(&self) -> u64
        ensures value { result ≡ day_of self.now }
        ensures in_range { result ≤ last_day }
    {
        self.seconds / SECONDS_IN_DAY
    }

    /// Writes the moment as `YYYY-MM-DDTHH:MM:SSZ`.
    pub fn print(&self, text: &mut [u8; TEXT_LEN])
        ensures written { text.new ≡ moment_text self.now }
        ensures in_range { IsTrue (is_moment self.now) }
    {
        let date = civil_date(self.day());
        let year = date.year as u16;
        let [y1, y2] = digits_of((year / 100) as u8);
        let [y3, y4] = digits_of((year % 100) as u8);
        let [o1, o2] = digits_of(date.month);
        let [d1, d2] = digits_of(date.day);
        let [h1, h2] = digits_of((self.seconds % SECONDS_IN_DAY / 3600) as u8);
        let [m1, m2] = digits_of((self.seconds % 3600 / 60) as u8);
        let [s1, s2] = digits_of((self.seconds % 60) as u8);
        *text = [
            y1, y2, y3, y4, b'-', o1, o2, b'-', d1, d2, b'T', h1, h2, b':', m1, m2, b':', s1, s2,
            b'Z',
        ];
    }

    /// Reads a text that `print` writes, and no other text.
    ///
    /// # Errors
    /// `BadMoment` if the text isn't that of a moment.
    pub fn parse(text: &str) -> Result<Moment, MomentFault>
        ensures read { result ≡ ok_or (moment_of text.now) MomentFault.BadMoment }
        ensures value { IfOk result
            (λ moment. IsTrue (is_moment moment) × (text.now ≡ moment_text moment)) }
        ensures printed { (n : ℕ) →
            IsTrue (is_moment n) → text.now ≡ moment_text n → result ≡ Ok n }
        ensures fault { IfErr result (λ _. IsNoMoment text.now) }
    {
        moment_spelled(text.as_bytes()).ok_or(MomentFault::BadMoment)
    }
}

// The moment with this text.
fn moment_spelled(text: &[u8]) -> Option<Moment>
    ensures { result ≡ moment_of text.now }
{
    let moment = moment_of_digits(text)?;
    let mut printed = [0; TEXT_LEN];
    moment.print(&mut printed);
    if printed.as_slice() == text {
        Some(moment)
    } else {
        None
    }
}

// The moment that the digits write, if the text is that of a moment.
fn moment_of_digits(text: &[u8]) -> Option<Moment>
    ensures { (n : ℕ) → IsTrue (is_moment n) → text.now ≡ moment_text n → result ≡ Some n }
{
    if text.len() != TEXT_LEN {
        return None;
    }
    let year = number_at(text, 0) as u16 * 100 + number_at(text, 2) as u16;
    let (month, day) = (number_at(text, 5), number_at(text, 8));
    let date = Date::new(year as i16, month as i8, day as i8).ok()?;
    let (hour, minute, second) = (
        number_at(text, 11),
        number_at(text, 14),
        number_at(text, 17),
    );
    let time = Time::new(hour as i8, minute as i8, second as i8, 0).ok()?;
    Moment::from_seconds(DateTime { date, time }.to_second()).ok()
}

// The number that the two digits at a place write. For other bytes it is some number below 100.
fn number_at(text: &[u8], place: usize) -> u8
    requires { place + 1 < length text.now }
    ensures shown { two_at text.now place < 100 → result ≡ two_at text.now place }
    ensures bound { result < 100 }
{
    let tens = text[place].saturating_sub(b'0') as u32;
    let ones = text[place + 1].saturating_sub(b'0') as u32;
    (tens * 10 + ones).min(99) as u8
}

fn digits_of(number: u8) -> [u8; 2]
    requires { number < 100 }
    ensures { result ≡ two_digits number }
{
    [b'0' + number / 10, b'0' + number % 10]
}

fn civil_date(day: u64) -> Date
    requires { day ≤ last_day }
    ensures year { result.year ≡ pos (year_of day) }
    ensures month { result.month ≡ month_of day }
    ensures day { result.day ≡ day_of_month day }
{
    Date::from_days_since_min(DAYS_BEFORE_EPOCH + day as u32)
}
