use super::dice::{next, pick};
use super::held::check_held;
use sequence::{ByteStore, SequenceError};
use std::alloc::Global;
use std::process::Abort;
use std::test::Fail;

// The bytes before a range, in it and behind it, or what a store answers that does not hold it.
fn parts(bytes: &[u8], place: usize, count: usize) -> Result<(&[u8], &[u8], &[u8]), SequenceError> {
    let (front, rest) = bytes
        .split_at_checked(place)
        .ok_or(SequenceError::OutOfRange)?;
    let (part, tail) = rest
        .split_at_checked(count)
        .ok_or(SequenceError::OutOfRange)?;
    Ok((front, part, tail))
}

// A vector of three parts, one behind another.
fn joined(heap: Global, front: &[u8], part: &[u8], tail: &[u8]) -> Result<Vec<u8>, Fail> {
    let mut whole = Vec::new(heap);
    whole.extend_from_slice(front)?;
    whole.extend_from_slice(part)?;
    whole.extend_from_slice(tail)?;
    Ok(whole)
}

// A store, and a vector that is to hold the same.
#[derive(Drop)]
struct Pair<'a> {
    heap: Global,
    store: ByteStore<'a>,
    model: Vec<u8>,
}

impl<'a> Pair<'a> {
    // Whether so many bytes have room in the place of others.
    fn check_room(&self, old_count: usize, new_count: usize) -> Result<(), SequenceError> {
        let kept = self.model.len().saturating_sub(old_count);
        if new_count <= self.store.capacity().saturating_sub(kept) {
            Ok(())
        } else {
            Err(SequenceError::Full)
        }
    }

    // Room for some equal bytes in the place of a range, and then these bytes.
    fn put(
        &mut self,
        rt: &impl Abort,
        place: usize,
        count: usize,
        bytes: &[u8],
    ) -> Result<(), Fail> {
        let room = self.check_room(count, bytes.len());
        let told = parts(&self.model, place, count).and_then(|parts| room.map(|_| parts));
        assert_eq!(rt;
            self.store.resize_range(place, count, bytes.len()),
            told.map(|_| ())
        );
        if let Ok((front, _, tail)) = told {
            assert_eq!(rt; self.store.write_at(place, bytes), Ok(()));
            self.model = joined(self.heap, front, bytes, tail)?;
        }
        Ok(())
    }

    fn take_out(&mut self, rt: &impl Abort, place: usize, count: usize) -> Result<(), Fail> {
        let told = parts(&self.model, place, count);
        assert_eq!(rt; self.store.take_out(place, count), told.map(|_| ()));
        if let Ok((front, _, tail)) = told {
            self.model = joined(self.heap, front, b"", tail)?;
        }
        Ok(())
    }

    fn move_to_end(&mut self, rt: &impl Abort, place: usize, count: usize) -> Result<(), Fail> {
        let told = parts(&self.model, place, count);
        assert_eq!(rt; self.store.move_to_end(place, count), told.map(|_| ()));
        if let Ok((front, part, tail)) = told {
            self.model = joined(self.heap, front, tail, part)?;
        }
        Ok(())
    }

    fn call(&mut self, rt: &impl Abort, seed: u32) -> Result<(), Fail> {
        let place = pick(seed, 8) as usize;
        let count = (pick(seed, 12) / 2) as usize;
        let bytes = [pick(seed, 4), pick(seed, 5), pick(seed, 6), pick(seed, 7)];
        let end = self.model.len();
        // each range of the number drawn is one call, with its weight
        match pick(seed, 16) {
            0..=3 => self.put(rt, end, 0, &bytes),
            4..=6 => self.put(rt, place, count, &bytes),
            7..=9 => self.put(rt, place, count, &bytes[0..1]),
            10..=12 => self.move_to_end(rt, place, count),
            13..=14 => self.take_out(rt, place, count),
            _ => {
                self.store.clear();
                self.model.clear();
                Ok(())
            }
        }
    }
}

#[test]
fn as_a_vector_would(rt: HostRuntime) -> Result<(), Fail> {
    let heap = rt.alloc();
    let mut bytes = [0; 20];
    let mut pair = Pair {
        heap,
        store: ByteStore::new(&mut bytes, 16),
        model: Vec::new(heap),
    };
    let mut seed = 2026;
    for _ in 0..600 {
        seed = next(seed);
        pair.call(&rt, seed)?;
        check_held(&rt, &pair.store, &pair.model);
    }
    Ok(())
}
