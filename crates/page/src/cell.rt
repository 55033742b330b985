ghost use Rattle.std.specs.Prelude.{◌≡◌};
ghost use Rattle.page.specs.Cells.{blank, lawful_cell};
ghost use Rattle.page.specs.Sizes.{fitting_size, inside};

/// What one cell of a page shows: a character up to 1,114,111, and a formatting up to 7.
// numbers, and no types of lawful values alone: a page has to turn the others down
#[derive(Clone, Copy, PartialEq, Eq, Debug)]
pub struct Cell {
    pub character: u32,
    pub formatting: u8,
}

/// A number of lines and a number of columns.
#[derive(Clone, Copy, PartialEq, Eq, Default, Debug)]
pub struct Size {
    pub lines: usize,
    pub columns: usize,
}

/// Why a cell was not placed: no cell changed.
#[derive(Clone, Copy, PartialEq, Eq, Debug)]
pub enum PlaceError {
    /// There is no such cell on the page.
    Outside,
    /// The character or the formatting is beyond its limit.
    Unlawful,
}

impl Cell {
    /// Character 32 with formatting 0.
    pub fn blank() -> Cell
        ensures value { result ≡ blank }
    {
        Cell {
            character: 32,
            formatting: 0,
        }
    }

    /// Whether character and formatting are within their limits.
    pub fn is_lawful(self) -> bool
        ensures answer { result ≡ lawful_cell self }
    {
        self.character <= 1_114_111 && self.formatting <= 7
    }
}

impl Size {
    /// Whether a page of this size has a cell there.
    pub(crate) fn contains(self, line: usize, column: usize) -> bool
        ensures answer { result ≡ inside self line column }
    {
        line < self.lines && column < self.columns
    }

    /// This size, if it is within the limits and has no more than so many cells, else 0 lines and 0 columns.
    pub(crate) fn fitting(self, room: usize) -> Size
        ensures value { result ≡ fitting_size self.lines self.columns room }
    {
        if self.lines <= 1000 && self.columns <= 1000 && self.lines * self.columns <= room {
            self
        } else {
            Size::default()
        }
    }
}
