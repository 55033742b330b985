//! The parts of a field of a ticket: its rectangle on the area, the cells of anything, and a field's formatting.
#![tactic(auto)]

mod cells;
mod formatting;
mod has_cells;
mod making;
mod placed;
mod rectangle;

pub use cells::Cells;
pub use formatting::Formatting;
pub use has_cells::HasCells;
pub use placed::Placed;
pub use rectangle::Rectangle;
