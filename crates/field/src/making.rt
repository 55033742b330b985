ghost use Rattle.field.specs.Areas.{RectangleOf};
ghost use Rattle.field.specs.Formattings.{FormattingOf};

use super::formatting::Formatting;
use super::rectangle::Rectangle;

// new with an Option, not TryFrom: no error would tell more than that there is none, and four numbers are no one value

impl Rectangle {
    /// The rectangle, if it has at least one cell and none outside the area.
    pub fn new(line: usize, column: usize, height: usize, width: usize) -> Option<Rectangle>
        ensures answer { RectangleOf (record { line = line; column = column; height = height; width = width }) result }
    {
        if height < 1 || width < 1 || line > 15 || column > 72 {
            return None;
        }
        if height > 15 - line || width > 72 - column {
            return None;
        }
        Some(Rectangle {
            line,
            column,
            height,
            width,
        })
    }
}

impl Formatting {
    /// The formatting of a number, if it is one from 0 to 7.
    pub fn new(value: u8) -> Option<Formatting>
        ensures answer { FormattingOf value result }
    {
        if value <= 7 {
            Some(Formatting { value })
        } else {
            None
        }
    }
}
