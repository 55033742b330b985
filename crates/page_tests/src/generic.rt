ghost use Rattle.std.specs.Prelude.{◌≡◌};
ghost use Rattle.page.specs.Pages.{Painted, placing};
ghost use Rattle.page_tests.specs.Uses.{PaintedBoth};

use page::{Cell, Page, PlaceError};

/// Places a cell at the first line and column, and then the same at another.
pub fn place_both<P: Page>(
    page: &mut P,
    line: usize,
    column: usize,
    cell: Cell,
) -> Result<(), PlaceError>
    ensures answer { result ≡ placing (P.Page.size page.old) line column cell }
    ensures cells { PaintedBoth (P.Page.size page.old) result line column cell
        (P.Page.cells page.old) (P.Page.cells page.new) }
    ensures size { P.Page.size page.new ≡ P.Page.size page.old }
    ensures around { P.Page.around page.old page.new }
{
    let _ = place_at(page, 0, 0, cell);
    place_at(page, line, column, cell)
}

/// Places one cell, with what every page promises of that.
fn place_at<P: Page>(page: &mut P, line: usize, column: usize, cell: Cell) -> Result<(), PlaceError>
    ensures answer { result ≡ placing (P.Page.size page.old) line column cell }
    ensures cells { Painted (P.Page.size page.old) result line column cell
        (P.Page.cells page.old) (P.Page.cells page.new) }
    ensures size { P.Page.size page.new ≡ P.Page.size page.old }
    ensures around { P.Page.around page.old page.new }
{
    page.place(line, column, cell)
}
