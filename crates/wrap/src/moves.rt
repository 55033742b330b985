ghost use Rattle.std.specs.Prelude.{◌≡◌, ◌+◌, if◌then◌else◌, nat_lt};

use super::cursor::{Cursor, Step, Word};

impl Step {
    /// Behind the character, a blank.
    pub(crate) fn over_blank(self, width: usize) -> Cursor
        ensures { (result.place ≡ self.end) × (result.row ≡ self.from.row) × (result.column ≡ (if nat_lt self.from.column width then self.from.column + 1 else self.from.column)) }
    {
        let column = if self.from.column < width {
            self.from.column + 1
        } else {
            self.from.column
        };
        Cursor {
            place: self.end,
            row: self.from.row,
            column,
        }
    }

    /// Behind the character, a line feed.
    pub(crate) fn over_line_feed(self) -> Cursor
        ensures { (result.place ≡ self.end) × (result.row ≡ self.from.row + 1) × (result.column ≡ 0) }
    {
        Cursor {
            place: self.end,
            row: self.from.row + 1,
            column: 0,
        }
    }
}

impl Word {
    /// Behind the word.
    pub(crate) fn behind(self) -> Cursor
        ensures { (result.place ≡ self.end) × (result.row ≡ self.row) × (result.column ≡ self.column + self.length) }
    {
        Cursor {
            place: self.end,
            row: self.row,
            column: self.column + self.length,
        }
    }
}
