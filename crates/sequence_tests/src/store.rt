use super::held::check_held;
use sequence::{ByteStore, SequenceError};

// Puts bytes in the place of a range, as a caller does: room first, then the bytes.
fn put(
    store: &mut ByteStore<'_>,
    place: usize,
    old_count: usize,
    bytes: &[u8],
) -> Result<(), SequenceError> {
    store.resize_range(place, old_count, bytes.len())?;
    store.write_at(place, bytes)
}

#[test]
fn no_memory_holds_nothing(rt: HostRuntime) {
    let mut bytes: [u8; 0] = [];
    let mut store = ByteStore::new(&mut bytes, 4);
    assert_eq!(rt; store.capacity(), 0);
    assert_eq!(rt; store.resize_range(0, 0, 0), Ok(()));
    assert_eq!(rt; store.resize_range(0, 0, 1), Err(SequenceError::Full));
    assert_eq!(rt; store.resize_range(0, 1, 0), Err(SequenceError::OutOfRange));
    assert_eq!(rt; store.write_at(0, b""), Ok(()));
    assert_eq!(rt; store.write_at(0, b"a"), Err(SequenceError::OutOfRange));
    assert_eq!(rt; store.take_out(0, 0), Ok(()));
    assert_eq!(rt; store.take_out(0, 1), Err(SequenceError::OutOfRange));
    assert_eq!(rt; store.move_to_end(1, 0), Err(SequenceError::OutOfRange));
    store.clear();
    check_held(&rt, &store, b"");
}

#[test]
fn one_place_holds_one_byte(rt: HostRuntime) {
    let mut bytes = [0; 3];
    let mut store = ByteStore::new(&mut bytes, 1);
    assert_eq!(rt; store.capacity(), 1);
    assert_eq!(rt; put(&mut store, 0, 0, b"ab"), Err(SequenceError::Full));
    check_held(&rt, &store, b"");
    assert_eq!(rt; put(&mut store, 0, 0, b"a"), Ok(()));
    check_held(&rt, &store, b"a");
    assert_eq!(rt; put(&mut store, 1, 0, b"b"), Err(SequenceError::Full));
    assert_eq!(rt; put(&mut store, 0, 1, b"b"), Ok(()));
    check_held(&rt, &store, b"b");
    assert_eq!(rt; store.move_to_end(0, 2), Err(SequenceError::OutOfRange));
    assert_eq!(rt; store.move_to_end(0, 1), Ok(()));
    assert_eq!(rt; store.take_out(0, 1), Ok(()));
    check_held(&rt, &store, b"");
}

#[test]
fn a_full_store_keeps_its_order(rt: HostRuntime) {
    let mut bytes = [0; 8];
    let mut store = ByteStore::new(&mut bytes, 99);
    assert_eq!(rt; store.capacity(), 8);
    assert_eq!(rt; put(&mut store, 0, 0, b"one"), Ok(()));
    assert_eq!(rt; put(&mut store, 3, 0, b"to"), Ok(()));
    assert_eq!(rt; put(&mut store, 5, 0, b"six"), Ok(()));
    check_held(&rt, &store, b"onetosix");
    assert_eq!(rt; put(&mut store, 3, 2, b"two"), Err(SequenceError::Full));
    check_held(&rt, &store, b"onetosix");
    assert_eq!(rt; store.move_to_end(0, 3), Ok(()));
    check_held(&rt, &store, b"tosixone");
    assert_eq!(rt; put(&mut store, 0, 2, b"a"), Ok(()));
    check_held(&rt, &store, b"asixone");
    assert_eq!(rt; put(&mut store, 1, 3, b"nine"), Ok(()));
    check_held(&rt, &store, b"anineone");
    assert_eq!(rt; store.write_at(6, b"abc"), Err(SequenceError::OutOfRange));
    assert_eq!(rt; store.take_out(1, 4), Ok(()));
    check_held(&rt, &store, b"aone");
    assert_eq!(rt; store.take_out(2, 3), Err(SequenceError::OutOfRange));
    assert_eq!(rt; store.view(1, 2), Some(&b"on"[..]));
}

#[test]
fn a_range_past_every_number_is_refused(rt: HostRuntime) {
    let mut bytes = [0; 4];
    let mut store = ByteStore::new(&mut bytes, 4);
    assert_eq!(rt; put(&mut store, 0, 0, b"abc"), Ok(()));
    assert_eq!(rt; store.view(1, usize::MAX), None);
    assert_eq!(rt; store.view(usize::MAX, 1), None);
    assert_eq!(rt;
        store.take_out(2, usize::MAX),
        Err(SequenceError::OutOfRange)
    );
    assert_eq!(rt;
        store.move_to_end(usize::MAX, 2),
        Err(SequenceError::OutOfRange)
    );
    assert_eq!(rt;
        store.resize_range(1, 1, usize::MAX),
        Err(SequenceError::Full)
    );
    assert_eq!(rt;
        store.resize_range(usize::MAX, 1, 1),
        Err(SequenceError::OutOfRange)
    );
    check_held(&rt, &store, b"abc");
}
