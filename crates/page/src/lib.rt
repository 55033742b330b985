//! Pages: grids of cells, each showing a character in a formatting. A page is known only by what
//! its cells show. Two makes keep their cells in lent memory, and an offset page lies over any page.
#![tactic(auto)]

mod cell;
mod grid;
mod memory;
mod offset;
mod page;

pub use cell::{Cell, PlaceError, Size};
pub use grid::{PackedPage, PlanarPage};
pub use offset::OffsetPage;
pub use page::Page;
