use sequence::Sequence;
use std::fmt::Debug;
use std::process::Abort;

// A list holds these entries and no other, told one by one and as a view of all.
pub(crate) fn check_held<T: Copy + PartialEq + Debug>(
    rt: &impl Abort,
    list: &Sequence<'_, T>,
    entries: &[T],
) {
    assert_eq!(rt; list.len(), entries.len());
    for (n, entry) in entries.iter().enumerate() {
        assert_eq!(rt; list.get(n), Some(*entry));
    }
    assert_eq!(rt; list.get(entries.len()), None);
    assert_eq!(rt; list.view(0, entries.len()), Some(entries));
    assert_eq!(rt; list.view(entries.len(), 1), None);
}
