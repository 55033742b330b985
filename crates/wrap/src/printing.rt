ghost use Rattle.std.specs.Prelude.{◌≡◌, ℕ, ◌+◌, ◌<◌, ◌≤◌, ◌&&◌, List, [], ◌∷◌, ◌++◌, length, replicate, if◌then◌else◌, ◌==◌, nat_eq};
ghost use Rattle.page.specs.Cells.{blank};
ghost use Rattle.wrap.specs.Flow.{blank_in, spread};
ghost use Rattle.field.specs.Areas.{area_of};
ghost use Rattle.wrap.specs.Pictures.{AddedLast, Changed, Kept, LastShows, NoneShowsBlank, fill, grid_cell, on_grid, paint, printed_over};

use super::cursor::{Cursor, Word};
use super::frame::Frame;
use super::grid::Grid;
use super::sources::Characters;
use super::walking::next_word;
use field::Rectangle;
use page::Cell;

/// As many blanks as the area has cells.
fn blank_cells() -> [Cell; 1080]
    ensures { result ≡ replicate 1080 blank }
{
    [Cell::blank(); 1080]
}

impl Grid {
    /// A grid of blanks.
    pub fn new() -> Grid
        ensures cells { (l c : ℕ) → l < 15 → c < 72 → grid_cell result l c ≡ blank }
    {
        Grid {
            cells: blank_cells(),
        }
    }

    // line and column are two numbers here, as in `page`: a rectangle shifts each by itself
    /// What a cell shows, or nothing outside the area.
    pub fn cell(&self, line: usize, column: usize) -> Option<Cell>
        ensures answer { result ≡ on_grid self.now line column }
    {
        if line < 15 && column < 72 {
            Some(self.cells[line * 72 + column])
        } else {
            None
        }
    }

    /// Sets one cell.
    fn set(&mut self, line: usize, column: usize, cell: Cell)
        requires { (line < 15) × (column < 72) }
        ensures { Changed self.old self.new (λ l c was. (if nat_eq l line && c == column then cell else was)) }
    {
        self.cells[line * 72 + column] = cell;
    }

    /// Prints one character at a row and a column of a frame: nothing where they lie outside.
    fn print_character(&mut self, frame: Frame, row: usize, column: usize, character: u32)
        ensures { Changed self.old self.new (paint (area_of frame.rectangle) frame.formatting (record { row = row; column = column; character = character } ∷ [])) }
    {
        let Frame {
            rectangle,
            formatting,
        } = frame;
        if row < rectangle.height && column < rectangle.width {
            self.set(
                rectangle.line + row,
                rectangle.column + column,
                Cell {
                    character,
                    formatting,
                },
            );
        }
    }

    /// Sets cells of one line from a column on.
    fn fill_line(&mut self, line: usize, column: usize, width: usize, cell: Cell)
        requires { (line < 15) × (column + width ≤ 72) }
        ensures { Changed self.old self.new (fill (record { line = line; column = column; height = 1; width = width }) cell) }
    {
        let first = line * 72 + column;
        self.cells[first..first + width].fill(cell);
    }

    /// Sets all cells of a frame to blanks.
    fn clear(&mut self, frame: Frame)
        ensures { Changed self.old self.new (fill (area_of frame.rectangle) (blank_in frame.formatting)) }
    {
        let blank = Cell {
            formatting: frame.formatting,
            ..Cell::blank()
        };
        // by row and index: nothing is known of the cells behind `chunks_mut`
        for row in 0..frame.rectangle.height {
            let line = frame.rectangle.line + row;
            self.fill_line(line, frame.rectangle.column, frame.rectangle.width, blank);
        }
    }

    /// Prints the characters of a word.
    fn print_word<S: Characters>(&mut self, frame: Frame, source: &S, word: Word)
        ensures printed { (cs rest : List ℕ) → S.Characters.stands source.now word.start (cs ++ rest) → word.length ≡ length cs → Changed self.old self.new (paint (area_of frame.rectangle) frame.formatting (spread word.row word.column cs)) }
        ensures kept { Kept (area_of frame.rectangle) self.old self.new }
    {
        // by place, and no iterator, as at `Characters`
        let mut place = word.start;
        for at in 0..word.length {
            let Some(decoded) = source.read_at(place) else {
                return;
            };
            self.print_character(frame, word.row, word.column + at, decoded.character);
            place += decoded.length;
        }
    }

    /// Prints a text into a rectangle: each of its cells shows the character that wrapping puts there, else a blank, in
    /// the formatting. All other cells stay.
    pub fn print<S: Characters>(&mut self, rectangle: Rectangle, formatting: u8, source: &S)
        ensures printed { (cs : List ℕ) → S.Characters.stands source.now 0 cs → Changed self.old self.new (printed_over (record { area = area_of rectangle; formatting = formatting; characters = cs })) }
        ensures kept { Kept (area_of rectangle) self.old self.new }
        ensures added { AddedLast }
        ensures last { LastShows }
        ensures none { NoneShowsBlank }
    {
        let frame = Frame {
            rectangle,
            formatting,
        };
        self.clear(frame);
        let mut cursor = Cursor::start();
        while let Some(word) = next_word(source, cursor, rectangle.width) {
            self.print_word(frame, source, word);
            cursor = word.behind();
        }
    }
}
