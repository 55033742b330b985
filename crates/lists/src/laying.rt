ghost use Rattle.std.specs.Prelude.{◌≡◌, ◌+◌, ◌≤◌, length, min, nat_le};
ghost use Rattle.lists.specs.Laying.{laid, overlaid};

/// Whether so many places from a place on lie before an end.
pub fn lies_within(place: usize, count: usize, end: usize) -> bool
    ensures { result ≡ nat_le (place + count) end }
{
    place <= end && count <= end - place
}

/// Lays as much of an item over the slice from a place on as there is room for, and tells the place
/// behind it.
pub fn lay<T: Copy>(slice: &mut [T], place: usize, item: &[T]) -> usize
    ensures value { result ≡ min (place + length item.now) (length slice.old) }
    ensures after { slice.new ≡ overlaid slice.old place item.now }
    ensures fits { place + length item.now ≤ length slice.old → slice.new ≡ laid slice.old place item.now }
{
    let room = slice.len().saturating_sub(place);
    let count = room.min(item.len());
    let start = place.min(slice.len());
    let end = start + count;
    slice[start..end].copy_from_slice(&item[..count]);
    end
}
