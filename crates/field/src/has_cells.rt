ghost use Rattle.std.specs.Prelude.{◌≡◌};
ghost use Rattle.field.specs.Areas.{Area, area_of, area_of_cells};

use super::cells::Cells;
use super::placed::Placed;

/// What has cells: `Cells` themselves, and whatever stands in a rectangle.
pub trait HasCells {
    ghost area: { Self → Area };

    fn cells(&self) -> Cells
        ensures value { area_of_cells result ≡ area self.now };
}

impl HasCells for Cells {
    ghost area = { area_of_cells };

    fn cells(&self) -> Cells {
        *self
    }
}

impl<P: Placed> HasCells for P {
    ghost area = { λ x. area_of (P.Placed.place x) };

    fn cells(&self) -> Cells {
        self.rectangle().into()
    }
}
