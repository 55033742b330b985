ghost use Rattle.std.specs.Prelude.{◌≡◌, ℕ, ◌≤◌, true, List, take, drop, is_some, IfSome};
ghost use Rattle.calendar.specs.Gregorian.{real_date, real_time};
ghost use Rattle.validity.specs.Periods.{InEveryCode, MomentOf, PeriodOf, ReadInEveryCode, between, date_at, moment_at, moment_seconds, moment_text, period_of, time_at, two_at, two_parts};

use super::answer::Period;
use calendar::{Date, Moment, Time};
use octets::write_number;

// date_at, time_at, moment_bytes and moment_of are functions, no TryFrom and no Display: the types are calendar's, so
// this crate may give them no trait of the library, and the form is that of a ticket's text alone

/// What two bytes write if they are digits.
// not read_number: no digit is tested here, since the text as a whole is compared with what it should be
fn two_at(text: &[u8; 19], at: usize) -> u8
    requires { at ≤ 17 }
    ensures { result ≡ two_at text.now at }
{
    text[at] % 16 * 10 + text[at + 1] % 16
}

/// The date of a moment's text, as if its digits stood in their places.
fn date_at(text: &[u8; 19]) -> Date
    ensures { result ≡ date_at text.now }
{
    Date {
        day: two_at(text, 0),
        month: two_at(text, 3),
        year: two_at(text, 6) as u16 * 100 + two_at(text, 8) as u16,
    }
}

/// The time of a moment's text, as if its digits stood in their places.
fn time_at(text: &[u8; 19]) -> Time
    ensures { result ≡ time_at text.now }
{
    Time {
        hour: two_at(text, 11),
        minute: two_at(text, 14),
        second: two_at(text, 17),
    }
}

/// The text of a real moment, whose numbers all fit their digits.
fn moment_bytes(date: Date, time: Time) -> [u8; 19]
    requires { (real_date date ≡ true) × (real_time time ≡ true) }
    ensures { result ≡ moment_text date time }
{
    let mut text = *b"dd.MM.yyyy HH:mm:ss";
    write_number(&mut text[0..2], date.day as u32);
    write_number(&mut text[3..5], date.month as u32);
    write_number(&mut text[6..10], date.year as u32);
    write_number(&mut text[11..13], time.hour as u32);
    write_number(&mut text[14..16], time.minute as u32);
    write_number(&mut text[17..19], time.second as u32);
    text
}

/// The moment that a text writes. It is read as if its digits stood in their places, and then compared with the
/// moment's text.
fn moment_of(text: &[u8; 19]) -> Option<Moment>
    ensures moment { MomentOf text.now result }
    ensures seconds { moment_seconds result ≡ moment_at text.now }
{
    let date = date_at(text);
    let time = time_at(text);
    let moment = Moment::new(date, time)?;
    if *text == moment_bytes(date, time) {
        Some(moment)
    } else {
        None
    }
}

/// The seconds of the moment that a text writes.
fn moment_at(text: &[u8; 19]) -> Option<u64>
    ensures { result ≡ moment_at text.now }
{
    moment_of(text).map(|moment| moment.seconds())
}

/// The period from a beginning to an end that is not before it.
fn period_between(begin: Option<u64>, end: Option<u64>) -> Option<Period>
    ensures { result ≡ between begin end }
{
    match (begin, end) {
        (Some(begin), Some(end)) if begin <= end => Some(Period { begin, end }),
        _ => None,
    }
}

/// The texts of two moments, if there is nothing but them and a hyphen between blanks in the middle.
fn two_parts(bytes: &[u8]) -> Option<(&[u8; 19], &[u8; 19])>
    ensures whether { is_some result ≡ two_parts bytes.now }
    ensures texts { IfSome result (λ p. (p.0.now ≡ take 19 bytes.now) × (p.1.now ≡ take 19 (drop 22 bytes.now))) }
{
    let (first, rest) = bytes.split_first_chunk()?;
    let last = rest.strip_prefix(b" - ")?.as_array()?;
    Some((first, last))
}

/// The period of a text, read part by part.
fn read_period(bytes: &[u8]) -> Option<Period>
    ensures { result ≡ period_of bytes.now }
{
    let (first, last) = two_parts(bytes)?;
    period_between(moment_at(first), moment_at(last))
}

/// The period that a text tells: `dd.MM.yyyy HH:mm:ss - dd.MM.yyyy HH:mm:ss`, with real moments and an end not before
/// the beginning.
/// Such a text has the same bytes in every code.
pub fn period_of_text(bytes: &[u8]) -> Option<Period>
    ensures answer { PeriodOf bytes.now result }
    ensures codes { InEveryCode bytes.now result }
    ensures read { ReadInEveryCode bytes.now result }
    ensures law { (cs : List ℕ) → PeriodOf cs (period_of cs) }
{
    read_period(bytes)
}
