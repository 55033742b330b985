use page::Cell;

// No grid of `page`: an area of fixed size over its own cells, with no lent memory.
/// The area of 15 lines and 72 columns, a cell at each.
#[derive(Drop)]
pub struct Grid {
    pub(crate) cells: [Cell; 1080],
}
