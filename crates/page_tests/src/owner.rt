ghost use Rattle.std.specs.Prelude.{◌≡◌, Some};
ghost use Rattle.page.specs.Cells.{blank};

use super::generic::place_both;
use page::{Cell, OffsetPage, PackedPage, Page};

/// What a cell above a window under another shows, after generic code placed others there.
pub fn above_windows(line: usize, column: usize, cell: Cell) -> Option<Cell>
    ensures answer { result ≡ Some blank }
{
    let mut words = [7u32; 1600];
    let window = OffsetPage::new(PackedPage::new(20, 80, &mut words), 5, 0);
    let mut page = OffsetPage::new(window, 0, 8);
    let _ = place_both(&mut page, line, column, cell);
    let window = page.into_inner();
    window.into_inner().cell(0, 0)
}
