ghost use Rattle.std.specs.Prelude.{◌≡◌};
ghost use Rattle.page.specs.declared.cell.Size.{Size};
ghost use Rattle.page.specs.Pages.{AllLawful, CellMap, Limited, Painted, placing, reading};

use super::cell::{Cell, PlaceError, Size};

/// A page: a fixed number of lines and of columns, counted from 0, and a cell at each.
pub trait Page {
    ghost size: { Self → Size };

    // What the cell at a line and a column shows: it has a meaning inside the page only.
    ghost cells: { Self → CellMap };

    // The second page is the first after some calls: what lies around the page is as it was.
    ghost around: { Self → Self → Type 0 };

    /// The lines and columns of the page.
    fn size(&self) -> Size
        ensures answer { result ≡ size self.now };

    // line and column are two numbers here: an offset page shifts each by itself, and whoever paints counts each alone
    /// What a cell shows, or nothing outside the page.
    fn cell(&self, line: usize, column: usize) -> Option<Cell>
        ensures answer { result ≡ reading (size self.now) (cells self.now) line column };

    /// Sets one cell, or no cell where it fails.
    fn place(&mut self, line: usize, column: usize, cell: Cell) -> Result<(), PlaceError>
        ensures answer { result ≡ placing (size self.old) line column cell }
        ensures cells { Painted (size self.old) result line column cell (cells self.old) (cells self.new) }
        ensures size { size self.new ≡ size self.old }
        ensures around { around self.old self.new };

    ghost limits: { (p : Self) → Limited (size p) };

    ghost lawful: { (p : Self) → AllLawful (size p) (cells p) };

    ghost stays: { (p : Self) → around p p };

    ghost goes: { (p q s : Self) → around p q → around q s → around p s };
}
