ghost use Rattle.std.specs.Prelude.{◌≡◌};
ghost use Rattle.field.specs.Areas.{area_of, area_of_cells};

use super::rectangle::Rectangle;

/// The cells of a thing: its first line and column, and its size. They may lie anywhere, and there may be none.
#[derive(Clone, Copy, PartialEq, Eq, Debug)]
pub struct Cells {
    pub line: u32,
    pub column: u32,
    pub height: u32,
    pub width: u32,
}

impl From<Rectangle> for Cells {
    ghost from_gives = { λ rectangle cells. area_of_cells cells ≡ area_of rectangle };

    fn from(rectangle: Rectangle) -> Cells {
        Cells {
            line: rectangle.line as u32,
            column: rectangle.column as u32,
            height: rectangle.height as u32,
            width: rectangle.width as u32,
        }
    }
}
