ghost use Rattle.std.specs.Prelude.{◌≡◌, ℕ, ◌+◌, ◌<◌, ◌≤◌, false, List, ◌∷◌, length as len, IfSome};
ghost use Rattle.wrap.specs.Classes.{class_of};
ghost use Rattle.wrap.specs.Flow.{put, words};
ghost use Rattle.wrap.specs.Walking.{Arrived, InkRun, NextWord};
ghost use Rattle.wrap.specs.declared.classes.CharacterClass.TheVariants.{Ink};

use super::classes::{CharacterClass, class_of};
use super::cursor::{Cursor, Step, Word};
use super::sources::Characters;

// By place, and no iterator, as at `Characters`.
/// A run of ink: how many characters it has, and where it ends.
#[derive(Clone, Copy)]
struct Run {
    length: usize,
    end: usize,
}

/// The run of ink from a place on.
fn ink_run<S: Characters>(source: &S, place: usize) -> Run
    ensures run { (cs : List ℕ) → S.Characters.stands source.now place cs → InkRun (S.Characters.stands source.now) cs result }
    ensures ahead { place + result.length ≤ result.end }
    ensures within { place ≤ S.Characters.end source.now → result.end ≤ S.Characters.end source.now }
{
    let mut end = place;
    let mut length = 0;
    while let Some(decoded) = source.read_at(end) {
        let CharacterClass::Ink = class_of(decoded.character) else {
            break;
        };
        end += decoded.length;
        length += 1;
    }
    Run { length, end }
}

/// The word of a run that begins at the cursor: printed at the cursor's column if the width leaves room for it, else at
/// the front of the next row.
fn place_word(cursor: Cursor, run: Run, width: usize) -> Word
    requires { (1 ≤ run.length) × (cursor.place + run.length ≤ run.end) }
    ensures place { (result.start ≡ cursor.place) × (result.end ≡ run.end) × (result.length ≡ run.length) }
    ensures put { (cs : List ℕ) → run.length ≡ len cs → put width cursor.row cursor.column cs ≡ record { row = result.row; column = result.column; characters = cs } }
{
    let Run { length, end } = run;
    if length <= width.saturating_sub(cursor.column) {
        return Word {
            start: cursor.place,
            end,
            length,
            row: cursor.row,
            column: cursor.column,
        };
    }
    Word {
        start: cursor.place,
        end,
        length,
        row: cursor.row + 1,
        column: 0,
    }
}

/// The word that begins with a character of ink.
fn put_word<S: Characters>(source: &S, first: Step, width: usize) -> Word
    ensures word { (c : ℕ) (cs : List ℕ) → class_of c ≡ Ink → S.Characters.stands source.now first.from.place (c ∷ cs) → S.Characters.stands source.now first.end cs → Arrived (S.Characters.stands source.now) width (words width false first.from.row first.from.column (c ∷ cs)) result }
    ensures ahead { first.from.place < result.end }
    ensures within { first.end ≤ S.Characters.end source.now → result.end ≤ S.Characters.end source.now }
{
    let behind = ink_run(source, first.end);
    let run = Run {
        length: 1 + behind.length,
        end: behind.end,
    };
    place_word(first.from, run, width)
}

/// The next word from the cursor on.
pub(crate) fn next_word<S: Characters>(source: &S, from: Cursor, width: usize) -> Option<Word>
    ensures word { (cs : List ℕ) → S.Characters.stands source.now from.place cs → NextWord (S.Characters.stands source.now) width (words width false from.row from.column cs) result }
    ensures ahead { IfSome result (λ w. (from.place < w.end) × (w.end ≤ S.Characters.end source.now)) }
{
    let mut cursor = from;
    while let Some(decoded) = source.read_at(cursor.place) {
        let step = Step {
            from: cursor,
            end: cursor.place + decoded.length,
        };
        cursor = match class_of(decoded.character) {
            CharacterClass::Blank => step.over_blank(width),
            CharacterClass::LineFeed => step.over_line_feed(),
            CharacterClass::Ink => return Some(put_word(source, step, width)),
        };
    }
    None
}
