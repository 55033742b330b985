ghost use Rattle.std.specs.Prelude.{◌≡◌, ℕ, ◌*◌, ◌<◌, ◌≤◌, true, min, length, IfSome};
ghost use Rattle.page.specs.Cells.{blank, lawful_cell};
ghost use Rattle.page.specs.Sizes.{fitting_size, index_in};
ghost use Rattle.page.specs.Memories.{packed_stored, planar_stored};

use super::cell::{Cell, PlaceError, Size};
use super::memory::{CellMemory, PackedCells, PlanarCells};
use super::page::Page;

/// A page over lent memory, whose cells stand line by line.
#[derive(Drop)]
pub struct Grid<M: CellMemory> {
    memory: M,
    size: Size,
    ghost lines_limit: { size.lines ≤ 1000 },
    ghost columns_limit: { size.columns ≤ 1000 },
    ghost has_room: { size.lines * size.columns ≤ M.CellMemory.room memory },
    ghost all_lawful: { (k : ℕ) → k < size.lines * size.columns → lawful_cell (M.CellMemory.stored memory k) ≡ true },
}

/// A page that takes one word for a cell.
pub type PackedPage<'a> = Grid<PackedCells<'a>>;

/// A page with its characters in one memory and its formattings in another.
pub type PlanarPage<'a> = Grid<PlanarCells<'a>>;

/// Stores a blank at each index below a count.
fn store_blanks<M: CellMemory>(memory: &mut M, count: usize)
    requires { count ≤ M.CellMemory.room memory.old }
    ensures cells { (k : ℕ) → k < count → M.CellMemory.stored memory.new k ≡ blank }
    ensures room { M.CellMemory.room memory.new ≡ M.CellMemory.room memory.old }
{
    // by index: nothing else is known of a memory of any make
    for index in 0..count {
        memory.store(index, Cell::blank());
    }
}

impl<M: CellMemory> Grid<M> {
    ghost use Rattle.page.specs.Grids.{AllBlank};

    /// A page of blanks, whatever the memory held.
    fn of_blanks(size: Size, mut memory: M) -> Grid<M>
        ensures size { result.size ≡ fitting_size size.lines size.columns (M.CellMemory.room memory) }
        ensures cells { AllBlank M.CellMemory.stored result }
    {
        let size = size.fitting(memory.room());
        store_blanks(&mut memory, size.lines * size.columns);
        Grid { memory, size }
    }

    /// Where a cell stands in the memory, or nothing outside the page.
    fn index_of(&self, line: usize, column: usize) -> Option<usize>
        ensures answer { result ≡ index_in self.now.size line column }
        ensures within { IfSome result (λ index. index < M.CellMemory.room self.now.memory) }
    {
        if self.size.contains(line, column) {
            Some(line * self.size.columns + column)
        } else {
            None
        }
    }
}

// a `new` for each of the two makes: they are lent different memories
// 0 by 0 and no Option: the rules of pages give what does not fit a page of that size
// lines and columns are two numbers, as a caller has them: a `Size` is what a page answers

impl<'a> Grid<PackedCells<'a>> {
    ghost use Rattle.page.specs.Grids.{AllBlank};

    /// A page of blanks. Both sizes are 0 where one is over 1,000 or the memory is too short.
    pub fn new(lines: usize, columns: usize, words: &'a mut [u32]) -> Grid<PackedCells<'a>>
        ensures size { result.size ≡ fitting_size lines columns (length words.old) }
        ensures cells { AllBlank packed_stored result }
    {
        Grid::of_blanks(Size { lines, columns }, PackedCells { words })
    }
}

impl<'a> Grid<PlanarCells<'a>> {
    ghost use Rattle.page.specs.Grids.{AllBlank};

    /// A page of blanks. Both sizes are 0 where one is over 1,000 or a memory is too short.
    pub fn new(
        lines: usize,
        columns: usize,
        characters: &'a mut [u32],
        formattings: &'a mut [u8],
    ) -> Grid<PlanarCells<'a>>
        ensures size { result.size
            ≡ fitting_size lines columns (min (length characters.old) (length formattings.old)) }
        ensures cells { AllBlank planar_stored result }
    {
        Grid::of_blanks(
            Size { lines, columns },
            PlanarCells {
                characters,
                formattings,
            },
        )
    }
}

impl<M: CellMemory> Page for Grid<M> {
    ghost use Rattle.page.specs.Grids.{grid_cells};
    ghost use Rattle.std.specs.Prelude.{◌+◌};
    ghost use Rattle.std.proofs.Common.{arith, mul_comm, rules};
    ghost use Rattle.std.proofs.lemmas.Nat.{mul-add-lt};

    ghost size = { λ p. p.size };

    ghost cells = { grid_cells M.CellMemory.stored };

    // Nothing lies around it.
    ghost around = { λ _ _. Unit {0} };

    ghost limits = { Prim.search rules };

    ghost lawful = { λ p l c h k.
        let lines = p.size.lines in let columns = p.size.columns in
        p.all_lawful (l * columns + c) (omega (arith, mul-add-lt l columns c lines h k, mul_comm lines columns)) };

    ghost stays = { Prim.search rules };

    ghost goes = { Prim.search rules };

    fn size(&self) -> Size {
        self.size
    }

    fn cell(&self, line: usize, column: usize) -> Option<Cell> {
        let index = self.index_of(line, column)?;
        Some(self.memory.load(index))
    }

    fn place(&mut self, line: usize, column: usize, cell: Cell) -> Result<(), PlaceError> {
        let index = self.index_of(line, column).ok_or(PlaceError::Outside)?;
        if !cell.is_lawful() {
            return Err(PlaceError::Unlawful);
        }
        self.memory.store(index, cell);
        Ok(())
    }
}
