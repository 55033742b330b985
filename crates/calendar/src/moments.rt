ghost use Rattle.std.specs.Prelude.{◌≡◌, ◌+◌, ◌*◌, true, ◌&&◌, is_some, IfSome};
ghost use Rattle.calendar.specs.Gregorian.{real_date, real_time, day_number, seconds_of};
ghost use Rattle.calendar.specs.Order.{DaysRank, DaysGapless, SecondsRank};

use crate::{Date, Time, days_before_month, days_before_year};

/// A date and time of day that the calendar has.
#[derive(Clone, Copy, PartialEq, Eq, Debug)]
pub struct Moment {
    date: Date,
    time: Time,
    ghost real: { (real_date date ≡ true) × (real_time time ≡ true) },
}

impl Moment {
    // an Option, no TryFrom: it is made of two values, and no error would tell more than that one is not real
    /// The moment of a date and a time of day, if both are real.
    pub fn new(date: Date, time: Time) -> Option<Moment>
        ensures accepts { is_some result ≡ (real_date date && real_time time) }
        ensures holds { IfSome result (λ m. (m.date ≡ date) × (m.time ≡ time)) }
    {
        if date.is_real() && time.is_real() {
            Some(Moment { date, time })
        } else {
            None
        }
    }

    pub fn date(&self) -> Date
        ensures answer { result ≡ self.now.date }
        ensures real { real_date result ≡ true }
    {
        self.date
    }

    pub fn time(&self) -> Time
        ensures answer { result ≡ self.now.time }
        ensures real { real_time result ≡ true }
    {
        self.time
    }

    /// The days since 01.01.0001.
    pub fn day_number(&self) -> u32
        ensures counts { result ≡ day_number self.now.date }
        ensures ranks { DaysRank }
        ensures gapless { DaysGapless }
    {
        count_days(self.date)
    }

    /// The seconds since 01.01.0001 00:00:00.
    pub fn seconds(&self) -> u64
        ensures counts { result ≡ seconds_of self.now.date self.now.time }
        ensures ranks { SecondsRank }
    {
        count_seconds(count_days(self.date), self.time)
    }
}

fn count_days(date: Date) -> u32
    requires { real_date date ≡ true }
    ensures { result ≡ day_number date }
{
    let before = days_before_year(date.year) + days_before_month(date.month, date.year);
    before + (date.day - 1) as u32
}

fn count_seconds(days: u32, time: Time) -> u64
    ensures { result ≡ ((days * 24 + time.hour) * 60 + time.minute) * 60 + time.second }
{
    let hours = days as u64 * 24 + time.hour as u64;
    (hours * 60 + time.minute as u64) * 60 + time.second as u64
}
