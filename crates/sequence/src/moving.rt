ghost use Rattle.std.specs.Prelude.{◌≡◌, ◌+◌, ◌≤◌, ◌++◌, length, take, drop};
ghost use Rattle.sequence.specs.Parts.{moved};

/// Moves so many entries from a place on behind the others that lie before an end.
#[tactic(auto, using(crate::proofs::FrontLaws::turned_is))]
pub(crate) fn move_behind<T: Copy>(items: &mut [T], place: usize, count: usize, end: usize)
    requires within { place + count ≤ end }
    requires there { end ≤ length items.old }
    ensures { items.new ≡ moved place count (take end items.old) ++ drop end items.old }
{
    items[place..end].rotate_left(count);
}
