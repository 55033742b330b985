ghost use Rattle.std.specs.Prelude.{◌≤◌, length};

use super::error::SequenceError;
use super::moving::move_behind;
use lists::lies_within;

/// Entries in order, over lent memory.
// a slice and a count, no Vec: the caller lends the memory, and there is no heap
#[derive(Drop)]
pub struct Sequence<'a, T> {
    items: &'a mut [T],
    len: usize,
    ghost within: { len ≤ length items.now },
}

/// Byte strings laid end to end, over lent memory.
pub type ByteStore<'a> = Sequence<'a, u8>;

// place and count are two numbers, no Range: their sum may not fit a usize, and a struct would be made at each call
// `room` and `refused` stand at each call: they compare two values, which no invariant of one can.
impl<'a, T: Copy> Sequence<'a, T> {
    ghost use Rattle.std.proofs.Math.Seq.{paste};
    ghost use Rattle.std.specs.Prelude.{◌≡◌, ℕ, ◌+◌, ◌-◌, min, drop, List, [], ◌∷◌, ◌++◌, Some, OnOk, OnErr, slice_get, slice_set};
    ghost use Rattle.std.specs.Option.{option_map};
    ghost use Rattle.lists.specs.Laying.{laid};
    ghost use Rattle.sequence.specs.Parts.{spliced, without, moved, removed, raised};
    ghost use Rattle.sequence.specs.Pieces.{joined, piece_at, Lies, PiecesBecome, Room};
    ghost use Rattle.sequence.specs.Answers.{range_answer, room_answer, resize_answer, view_answer};
    ghost use Rattle.sequence.specs.Held.{held, room_for};

    /// An empty list that may hold as many entries as the slice has, or fewer.
    pub fn new(items: &'a mut [T], capacity: usize) -> Sequence<'a, T>
        ensures empty { held result ≡ [] }
        ensures room { room_for result ≡ min capacity (length items.old) }
    {
        let room = capacity.min(items.len());
        Sequence {
            items: &mut items[..room],
            len: 0,
        }
    }

    pub fn len(&self) -> usize
        ensures value { result ≡ length (held self.now) }
        ensures within { result ≤ room_for self.now }
    {
        self.entries().len()
    }

    pub fn capacity(&self) -> usize
        ensures { result ≡ room_for self.now }
    {
        self.items.len()
    }

    /// The entry at a number from 0, if there is one.
    pub fn get(&self, n: usize) -> Option<T>
        ensures { result ≡ slice_get (held self.now) n }
    {
        self.entries().get(n).copied()
    }

    /// Adds an entry behind the last, unless the list is full.
    pub fn push(&mut self, entry: T) -> Result<(), SequenceError>
        ensures told { result ≡ room_answer (length (held self.old) + 1) (room_for self.old) }
        ensures holds { OnOk result (held self.new ≡ held self.old ++ entry ∷ []) }
        ensures room { room_for self.new ≡ room_for self.old }
        ensures refused { OnErr result (self.new ≡ self.old) }
    {
        if self.len == self.items.len() {
            return Err(SequenceError::Full);
        }
        self.items[self.len] = entry;
        self.len += 1;
        Ok(())
    }

    // not `write_at` of one entry: of a slice made of one `T` it is not known that it fits in memory
    /// Puts another entry in the place of the one at a number, if there is one.
    #[tactic(auto, using(crate::proofs::FrontLaws::front_set))]
    pub fn replace(&mut self, n: usize, entry: T) -> Result<(), SequenceError>
        ensures told { result ≡ range_answer n 1 (length (held self.old)) }
        ensures holds { held self.new ≡ slice_set (held self.old) n entry }
        ensures room { room_for self.new ≡ room_for self.old }
        ensures refused { OnErr result (self.new ≡ self.old) }
    {
        self.check_range(n, 1)?;
        self.items[n] = entry;
        Ok(())
    }

    /// Removes the entry at a number, if there is one; later ones move down by one.
    pub fn remove(&mut self, n: usize) -> Result<(), SequenceError>
        ensures told { result ≡ range_answer n 1 (length (held self.old)) }
        ensures holds { held self.new ≡ removed n (held self.old) }
        ensures room { room_for self.new ≡ room_for self.old }
        ensures refused { OnErr result (self.new ≡ self.old) }
    {
        self.take_out(n, 1)
    }

    /// Makes the entry at a number the last, if there is one; the others keep their order.
    pub fn raise(&mut self, n: usize) -> Result<(), SequenceError>
        ensures told { result ≡ range_answer n 1 (length (held self.old)) }
        ensures holds { held self.new ≡ raised n (held self.old) }
        ensures room { room_for self.new ≡ room_for self.old }
        ensures refused { OnErr result (self.new ≡ self.old) }
    {
        self.move_to_end(n, 1)
    }

    pub fn clear(&mut self)
        ensures holds { held self.new ≡ [] }
        ensures room { room_for self.new ≡ room_for self.old }
    {
        self.len = 0;
    }

    /// The entries of a range, where it lies within them.
    pub fn view(&self, place: usize, count: usize) -> Option<&[T]>
        ensures told { option_map (λ x. x.now) result ≡ view_answer place count (held self.now) }
        ensures piece { (ps : List (List T)) (n : ℕ) → Lies ps n (held self.now) place count
            → option_map (λ x. x.now) result ≡ Some (piece_at n ps) }
    {
        self.entries().get(place..)?.get(..count)
    }

    /// Makes room for so many entries in the place of a range; those behind it move.
    ///
    /// Refused where the range is not within the entries, or the room is not there. What the new
    /// room holds is not said.
    pub fn resize_range(
        &mut self,
        place: usize,
        old_count: usize,
        new_count: usize,
    ) -> Result<(), SequenceError>
        ensures told { result
            ≡ resize_answer place old_count new_count (length (held self.old)) (room_for self.old) }
        ensures holds { OnOk result (Room new_count
            (λ gap. held self.new ≡ spliced place old_count gap (held self.old))) }
        ensures pieces { OnOk result ((ps : List (List T)) (n : ℕ)
            → Lies ps n (held self.old) place old_count
            → Room new_count (λ gap. held self.new ≡ joined (slice_set ps n gap))) }
        ensures added { OnOk result ((ps : List (List T))
            → joined ps ≡ held self.old → place ≡ length (held self.old)
            → Room new_count (λ gap. held self.new ≡ joined (ps ++ gap ∷ []))) }
        ensures room { room_for self.new ≡ room_for self.old }
        ensures refused { OnErr result (self.new ≡ self.old) }
    {
        self.check_range(place, old_count)?;
        if !lies_within(self.len - old_count, new_count, self.items.len()) {
            return Err(SequenceError::Full);
        }
        self.move_tail(place + old_count, place + new_count);
        Ok(())
    }

    /// Writes entries over those from a place on, where these are held.
    #[tactic(auto, using(crate::proofs::FrontLaws::front_laid))]
    pub fn write_at(&mut self, place: usize, entries: &[T]) -> Result<(), SequenceError>
        ensures told { result ≡ range_answer place (length entries.now) (length (held self.old)) }
        ensures holds { OnOk result (held self.new ≡ laid (held self.old) place entries.now) }
        ensures pieces { PiecesBecome (held self.old) place (length entries.now) result (held self.new)
            (λ ps n. slice_set ps n entries.now) }
        ensures room { room_for self.new ≡ room_for self.old }
        ensures refused { OnErr result (self.new ≡ self.old) }
    {
        self.check_range(place, entries.len())?;
        self.items[place..place + entries.len()].copy_from_slice(entries);
        Ok(())
    }

    /// Takes out a range, where it lies within the entries; those behind it move down.
    #[tactic(auto, using(crate::proofs::FrontLaws::front_fewer))]
    pub fn take_out(&mut self, place: usize, count: usize) -> Result<(), SequenceError>
        ensures told { result ≡ range_answer place count (length (held self.old)) }
        ensures holds { OnOk result (held self.new ≡ without place count (held self.old)) }
        ensures pieces { PiecesBecome (held self.old) place count result (held self.new)
            (λ ps n. removed n ps) }
        ensures room { room_for self.new ≡ room_for self.old }
        ensures refused { OnErr result (self.new ≡ self.old) }
    {
        self.move_to_end(place, count)?;
        self.len -= count;
        Ok(())
    }

    // a hint: a refusal costs no call
    /// Moves a range behind the other entries, where it lies within them.
    #[inline(always)]
    pub fn move_to_end(&mut self, place: usize, count: usize) -> Result<(), SequenceError>
        ensures told { result ≡ range_answer place count (length (held self.old)) }
        ensures holds { OnOk result (held self.new ≡ moved place count (held self.old)) }
        ensures pieces { PiecesBecome (held self.old) place count result (held self.new)
            (λ ps n. raised n ps) }
        ensures room { room_for self.new ≡ room_for self.old }
        ensures refused { OnErr result (self.new ≡ self.old) }
    {
        self.check_range(place, count)?;
        move_behind(self.items, place, count, self.len);
        Ok(())
    }

    /// The entries, first to last.
    fn entries(&self) -> &[T]
        ensures { result.now ≡ held self.now }
    {
        &self.items[..self.len]
    }

    /// Moves the entries from a place on to another place, and counts up to their new end.
    fn move_tail(&mut self, from: usize, to: usize)
        requires within { from ≤ self.old.len }
        requires room { to + (self.old.len - from) ≤ room_for self.old }
        ensures entries { self.new.items.now
            ≡ paste self.old.items.now to (drop from self.old.items.now) (self.old.len - from) }
        ensures len { self.new.len ≡ to + (self.old.len - from) }
        ensures room { room_for self.new ≡ room_for self.old }
    {
        let count = self.len - from;
        self.items.copy_within(from..self.len, to);
        self.len = to + count;
    }

    /// Refuses a range that does not lie within the entries.
    fn check_range(&self, place: usize, count: usize) -> Result<(), SequenceError>
        ensures { result ≡ range_answer place count self.now.len }
    {
        if lies_within(place, count, self.len) {
            Ok(())
        } else {
            Err(SequenceError::OutOfRange)
        }
    }
}
