ghost use Rattle.std.specs.Prelude.{◌≡◌, ℕ, ◌%◌, ◌<◌, true, if◌then◌else◌, nat_eq};
ghost use Rattle.page.specs.declared.cell.Cell.{Cell};
ghost use Rattle.page.specs.Cells.{lawful_cell};
ghost use Rattle.page.specs.Memories.{packed, packed_room, packed_stored, planar_room, planar_stored, unpacked};

use super::cell::Cell;

/// Memory for cells, by an index from 0.
pub(crate) trait CellMemory {
    ghost room: { Self → ℕ };

    ghost stored: { Self → ℕ → Cell };

    fn room(&self) -> usize
        ensures answer { result ≡ room self.now };

    fn load(&self, index: usize) -> Cell
        requires { index < room self.now }
        ensures answer { result ≡ stored self.now index };

    fn store(&mut self, index: usize, cell: Cell)
        requires within { index < room self.old }
        requires lawful { lawful_cell cell ≡ true }
        ensures cells { (k : ℕ) → stored self.new k ≡ (if nat_eq k index then cell else stored self.old k) }
        ensures room { room self.new ≡ room self.old };
}

// no From: a cell that is not lawful has no word
fn pack(cell: Cell) -> u32
    requires { lawful_cell cell ≡ true }
    ensures { result ≡ packed cell }
{
    (cell.character << 3) + cell.formatting as u32
}

fn unpack(word: u32) -> Cell
    ensures { result ≡ unpacked word }
{
    Cell {
        character: word >> 3,
        formatting: (word & 7) as u8,
    }
}

/// One word for a cell: the formatting in the three lowest bits, and the character above it.
#[derive(Drop)]
pub struct PackedCells<'a> {
    pub(crate) words: &'a mut [u32],
}

/// The characters in one memory, the formattings in another.
// two slices side by side: this make is for whoever has the two apart
#[derive(Drop)]
pub struct PlanarCells<'a> {
    pub(crate) characters: &'a mut [u32],
    pub(crate) formattings: &'a mut [u8],
}

impl<'a> CellMemory for PackedCells<'a> {
    ghost room = { packed_room };

    ghost stored = { packed_stored };

    fn room(&self) -> usize {
        self.words.len()
    }

    fn load(&self, index: usize) -> Cell {
        unpack(self.words[index])
    }

    fn store(&mut self, index: usize, cell: Cell) {
        self.words[index] = pack(cell);
    }
}

impl<'a> CellMemory for PlanarCells<'a> {
    ghost room = { planar_room };

    ghost stored = { planar_stored };

    fn room(&self) -> usize {
        self.characters.len().min(self.formattings.len())
    }

    fn load(&self, index: usize) -> Cell {
        Cell {
            character: self.characters[index],
            formatting: self.formattings[index],
        }
    }

    fn store(&mut self, index: usize, cell: Cell) {
        self.characters[index] = cell.character;
        self.formattings[index] = cell.formatting;
    }
}
