ghost use Rattle.std.specs.Prelude.{◌≡◌, ℕ, ◌+◌, ◌<◌};
ghost use Rattle.std.proofs.Common.{rules};
ghost use Rattle.page.specs.Offsets.{OffsetAround, offset_cells, offset_size, remaining};

use super::cell::{Cell, PlaceError, Size};
use super::page::Page;

/// A page over another one, shifted down and to the right: its first cell is the one of the page
/// below at that line and column, and its size is what remains from there on.
#[derive(Drop)]
pub struct OffsetPage<P> {
    below: P,
    down: usize,
    right: usize,
}

impl<P: Page> OffsetPage<P> {
    // lines and columns are two numbers, as a caller has them: a `Size` is what a page answers, and this is a shift
    /// Lays a page over `below`, shifted by so many lines and columns.
    pub fn new(below: P, lines: usize, columns: usize) -> OffsetPage<P>
        ensures below { result.below ≡ below }
        ensures shift { (result.down ≡ lines) × (result.right ≡ columns) }
        ensures size { offset_size P.Page.size result ≡ remaining (P.Page.size below) lines columns }
        ensures cells { (l c : ℕ) → l < (offset_size P.Page.size result).lines → c < (offset_size P.Page.size result).columns
            → offset_cells P.Page.cells result l c ≡ P.Page.cells below (l + lines) (c + columns) }
    {
        OffsetPage {
            below,
            down: lines,
            right: columns,
        }
    }

    /// The page below.
    pub fn into_inner(self) -> P
        ensures value { result ≡ self.below }
    {
        let OffsetPage { below, .. } = self;
        below
    }
}

impl<P: Page> Page for OffsetPage<P> {
    ghost size = { offset_size P.Page.size };

    ghost cells = { offset_cells P.Page.cells };

    ghost around = { OffsetAround P.Page.size P.Page.cells P.Page.around };

    ghost limits = { Prim.search rules };

    ghost lawful = { Prim.search rules };

    ghost stays = { Prim.search rules };

    ghost goes = { Prim.search rules };

    fn size(&self) -> Size {
        let below = self.below.size();
        Size {
            lines: below.lines.saturating_sub(self.down),
            columns: below.columns.saturating_sub(self.right),
        }
    }

    fn cell(&self, line: usize, column: usize) -> Option<Cell> {
        if self.size().contains(line, column) {
            self.below.cell(line + self.down, column + self.right)
        } else {
            None
        }
    }

    fn place(&mut self, line: usize, column: usize, cell: Cell) -> Result<(), PlaceError> {
        if !self.size().contains(line, column) {
            return Err(PlaceError::Outside);
        }
        self.below
            .place(line + self.down, column + self.right, cell)
    }
}
