ghost use Rattle.std.specs.Prelude.{Some};
ghost use Rattle.show_parts.specs.Lines.{edition_text, head_lines, second_text};

use super::characters::Characters;
use calendar::Date;
use head::{Edition, HeadItems};
use std::fmt;

/// A minute, as `DD.MM.YYYY HH:MM`.
#[derive(Clone, Copy)]
struct EditionText {
    edition: Edition,
}

impl fmt::Display for EditionText {
    ghost output = { λ x. Some (edition_text x.edition) };

    fn fmt<W: fmt::Write>(&self, f: &mut fmt::Formatter<W>) -> fmt::Result {
        let Date { day, month, year } = self.edition.date;
        let hour = self.edition.hour;
        let minute = self.edition.minute;
        write!(f, "{day:02}.{month:02}.{year:04} {hour:02}:{minute:02}")
    }
}

/// A second language, `none` where it is two blanks.
#[derive(Clone, Copy)]
struct SecondText {
    language: [u8; 2],
}

impl fmt::Display for SecondText {
    ghost output = { λ x. Some (second_text x.language) };

    fn fmt<W: fmt::Write>(&self, f: &mut fmt::Formatter<W>) -> fmt::Result {
        if self.language == *b"  " {
            return write!(f, "none");
        }
        let language = Characters {
            bytes: &self.language,
        };
        write!(f, "{language}")
    }
}

/// The items of a head, one to a line.
#[derive(Clone, Copy)]
pub struct HeadLines {
    pub items: HeadItems,
}

impl fmt::Display for HeadLines {
    ghost output = { λ x. Some (head_lines x.items) };

    fn fmt<W: fmt::Write>(&self, f: &mut fmt::Formatter<W>) -> fmt::Result {
        let items = self.items;
        let carrier = items.carrier;
        let key = Characters { bytes: &items.key };
        let edition = EditionText {
            edition: items.edition,
        };
        let flags = items.flags;
        let language = Characters {
            bytes: &items.language,
        };
        let second = SecondText {
            language: items.second_language,
        };
        write!(
            f,
            "carrier {carrier:04}\nkey {key}\nedition {edition}\nflags {flags}\nlanguage {language}\nsecond language {second}"
        )
    }
}
