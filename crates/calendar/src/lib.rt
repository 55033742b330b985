//! Dates and times of the Gregorian calendar, and the seconds since 01.01.0001 00:00:00.
#![tactic(auto)]

ghost use Rattle.std.specs.Prelude.{◌≡◌, ◌*◌, ◌≤◌};
ghost use Rattle.calendar.specs.Gregorian.{leap, month_length, real_date, real_time, days_before_year, days_before_month};

mod moments;

pub use moments::Moment;

/// The days of January to December in a common year.
pub const MONTH_LENGTHS: [u8; 12] = [31, 28, 31, 30, 31, 30, 31, 31, 30, 31, 30, 31];

/// A day as somebody hands it in: it may not exist.
#[derive(Clone, Copy, PartialEq, Eq, Debug)]
pub struct Date {
    pub day: u8,
    pub month: u8,
    pub year: u16,
}

/// A time of day as somebody hands it in: it may not exist.
#[derive(Clone, Copy, PartialEq, Eq, Debug)]
pub struct Time {
    pub hour: u8,
    pub minute: u8,
    pub second: u8,
}

/// Whether February has 29 days: every fourth year, but of the full hundreds only every fourth.
pub fn is_leap_year(year: u16) -> bool
    ensures answer { result ≡ leap year }
{
    year % 4 == 0 && (year % 100 != 0 || year % 400 == 0)
}

// month and year stay two numbers: a `Date` has a day besides
// 0 and no Option: every month has an answer here, and one that is none has no day
/// The number of days of a month, 0 where `month` is not 1 to 12.
pub fn month_length(month: u8, year: u16) -> u8
    ensures answer { result ≡ month_length month year }
{
    if !(1..=12).contains(&month) {
        return 0;
    }
    let common = MONTH_LENGTHS[(month - 1) as usize];
    if month == 2 && is_leap_year(year) {
        common + 1
    } else {
        common
    }
}

/// The days of the years from 1 to before `year`.
fn days_before_year(year: u16) -> u32
    ensures counts { result ≡ days_before_year year }
    ensures bound { result ≤ 366 * year }
{
    let years = year.saturating_sub(1) as u32;
    365 * years + years / 4 - years / 100 + years / 400
}

/// The days of the months of `year` from January to before `month`.
fn days_before_month(month: u8, year: u16) -> u32
    ensures counts { result ≡ days_before_month month year }
    ensures bound { result ≤ 255 * month }
{
    (1..month)
        .map(|earlier| month_length(earlier, year) as u32)
        .sum()
}

impl Date {
    /// Whether the calendar has this day, in the years 1 to 9999.
    pub fn is_real(&self) -> bool
        ensures answer { result ≡ real_date self.now }
    {
        (1..=9999).contains(&self.year)
            && (1..=12).contains(&self.month)
            && (1..=month_length(self.month, self.year)).contains(&self.day)
    }
}

impl Time {
    /// Whether a day has this second: 00:00:00 to 23:59:59.
    pub fn is_real(&self) -> bool
        ensures answer { result ≡ real_time self.now }
    {
        self.hour <= 23 && self.minute <= 59 && self.second <= 59
    }
}

#[cfg(test)]
mod tests {
    use super::*;

    fn date(day: u8, month: u8, year: u16) -> Date {
        Date { day, month, year }
    }

    fn time(hour: u8, minute: u8, second: u8) -> Time {
        Time {
            hour,
            minute,
            second,
        }
    }

    fn seconds(date: Date, time: Time) -> Option<u64> {
        Moment::new(date, time).map(|moment| moment.seconds())
    }

    #[test]
    fn leap_days(rt: HostRuntime) {
        let cases = [(1900, false), (2000, true), (2012, true), (2015, false)];
        for (year, leap) in cases {
            assert_eq!(rt; is_leap_year(year), leap);
            assert_eq!(rt; date(29, 2, year).is_real(), leap);
            assert!(rt; date(28, 2, year).is_real() && !date(30, 2, year).is_real());
        }
    }

    #[test]
    fn unreal_dates(rt: HostRuntime) {
        let cases = [
            (1, 1, 0),
            (1, 1, 10000),
            (0, 1, 2010),
            (1, 0, 2010),
            (1, 13, 2010),
            (32, 1, 2010),
            (31, 4, 2010),
        ];
        for (day, month, year) in cases {
            assert!(rt; !date(day, month, year).is_real());
        }
        assert!(rt; date(1, 1, 1).is_real() && date(31, 12, 9999).is_real());
    }

    #[test]
    fn unreal_times(rt: HostRuntime) {
        let cases = [(24, 0, 0), (0, 60, 0), (0, 0, 60)];
        for (hour, minute, second) in cases {
            assert!(rt; !time(hour, minute, second).is_real());
        }
        assert!(rt; time(0, 0, 0).is_real() && time(23, 59, 59).is_real());
    }

    #[test]
    fn known_seconds(rt: HostRuntime) {
        assert_eq!(rt;
            seconds(date(16, 7, 2010), time(17, 10, 55)),
            Some(63_414_897_055)
        );
        assert_eq!(rt; seconds(date(1, 1, 1), time(0, 0, 0)), Some(0));
        assert_eq!(rt;
            seconds(date(31, 12, 9999), time(23, 59, 59)),
            Some(315_537_897_599)
        );
        assert_eq!(rt; seconds(date(29, 2, 2015), time(0, 0, 0)), None);
    }
}
