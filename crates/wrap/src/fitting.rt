ghost use Rattle.std.specs.Prelude.{◌≡◌, ℕ, ◌&&◌, List, nat_le, nat_lt};
ghost use Rattle.wrap.specs.Flow.{fits};
ghost use Rattle.wrap.specs.Laws.{FitsInside, ReadingOrder, OneToACell, InkInOrder};

use super::cursor::{Cursor, Word};
use super::sources::Characters;
use super::walking::next_word;

impl Word {
    /// Whether the word stands inside a rectangle.
    fn is_inside(self, height: usize, width: usize) -> bool
        ensures { result ≡ (nat_le self.length width && nat_lt self.row height) }
    {
        self.length <= width && self.row < height
    }
}

// Height and width stay two numbers: `Rectangle` would ask for a place too, and a struct of their own would be taken
// apart at each call.

/// Whether a text fits a rectangle: no word is longer than the width, and none is printed on a row from the height on.
pub fn fits_in<S: Characters>(source: &S, height: usize, width: usize) -> bool
    ensures answer { (cs : List ℕ) → S.Characters.stands source.now 0 cs → result ≡ fits height width cs }
    ensures inside { FitsInside }
    ensures order { ReadingOrder }
    ensures apart { OneToACell }
    ensures ink { InkInOrder }
{
    let mut cursor = Cursor::start();
    while let Some(word) = next_word(source, cursor, width) {
        if !word.is_inside(height, width) {
            return false;
        }
        cursor = word.behind();
    }
    true
}
