use super::held::check_held;
use sequence::{Sequence, SequenceError};

#[test]
fn no_memory_holds_nothing(rt: HostRuntime) {
    let mut items: [u16; 0] = [];
    let mut list = Sequence::new(&mut items, 4);
    assert_eq!(rt; list.capacity(), 0);
    assert_eq!(rt; list.push(7), Err(SequenceError::Full));
    assert_eq!(rt; list.replace(0, 7), Err(SequenceError::OutOfRange));
    assert_eq!(rt; list.remove(0), Err(SequenceError::OutOfRange));
    assert_eq!(rt; list.raise(0), Err(SequenceError::OutOfRange));
    list.clear();
    check_held(&rt, &list, &[]);
}

#[test]
fn no_capacity_holds_nothing(rt: HostRuntime) {
    let mut items = [1, 2, 3];
    let mut list = Sequence::new(&mut items, 0);
    assert_eq!(rt; list.capacity(), 0);
    assert_eq!(rt; list.push(7), Err(SequenceError::Full));
    check_held(&rt, &list, &[]);
}

#[test]
fn one_place_holds_one_entry(rt: HostRuntime) {
    let mut items = [1, 2, 3];
    let mut list = Sequence::new(&mut items, 1);
    assert_eq!(rt; list.capacity(), 1);
    check_held(&rt, &list, &[]);
    assert_eq!(rt; list.push(7), Ok(()));
    assert_eq!(rt; list.push(8), Err(SequenceError::Full));
    check_held(&rt, &list, &[7]);
    assert_eq!(rt; list.raise(0), Ok(()));
    assert_eq!(rt; list.raise(1), Err(SequenceError::OutOfRange));
    assert_eq!(rt; list.replace(0, 9), Ok(()));
    assert_eq!(rt; list.replace(1, 5), Err(SequenceError::OutOfRange));
    check_held(&rt, &list, &[9]);
    assert_eq!(rt; list.remove(1), Err(SequenceError::OutOfRange));
    assert_eq!(rt; list.remove(0), Ok(()));
    check_held(&rt, &list, &[]);
    assert_eq!(rt; list.push(4), Ok(()));
    list.clear();
    check_held(&rt, &list, &[]);
}

#[test]
fn a_full_list_keeps_its_order(rt: HostRuntime) {
    let mut items = [0; 4];
    let mut list = Sequence::new(&mut items, 9);
    assert_eq!(rt; list.capacity(), 4);
    for entry in [10, 20, 30, 40] {
        assert_eq!(rt; list.push(entry), Ok(()));
    }
    assert_eq!(rt; list.push(50), Err(SequenceError::Full));
    check_held(&rt, &list, &[10, 20, 30, 40]);
    assert_eq!(rt; list.raise(1), Ok(()));
    check_held(&rt, &list, &[10, 30, 40, 20]);
    assert_eq!(rt; list.raise(3), Ok(()));
    check_held(&rt, &list, &[10, 30, 40, 20]);
    assert_eq!(rt; list.remove(0), Ok(()));
    check_held(&rt, &list, &[30, 40, 20]);
    assert_eq!(rt; list.replace(1, 41), Ok(()));
    assert_eq!(rt; list.push(60), Ok(()));
    assert_eq!(rt; list.push(70), Err(SequenceError::Full));
    check_held(&rt, &list, &[30, 41, 20, 60]);
    assert_eq!(rt; list.remove(3), Ok(()));
    assert_eq!(rt; list.remove(3), Err(SequenceError::OutOfRange));
    check_held(&rt, &list, &[30, 41, 20]);
}
