ghost use Rattle.std.specs.Prelude.{◌≡◌, ◌+◌, ◌≤◌, length};
ghost use Rattle.lists.specs.Laying.{laid};
ghost use Rattle.octets.specs.Digits.{digits};

use lists::lay;
use octets::number_digits;

/// Lays an item, for which there is room, and tells the place behind it.
pub(crate) fn lay_item(buffer: &mut [u8], place: usize, item: &[u8]) -> usize
    requires { place + length item.now ≤ length buffer.old }
    ensures value { result ≡ place + length item.now }
    ensures after { buffer.new ≡ laid buffer.old place item.now }
{
    lay(buffer, place, item)
}

/// Lays a number in so many digits, for which there is room, and tells the place behind them.
pub(crate) fn lay_number<const WIDTH: usize>(
    buffer: &mut [u8],
    place: usize,
    number: usize,
) -> usize
    requires { (place + WIDTH ≤ length buffer.old) × (number ≤ 9999) }
    ensures value { result ≡ place + WIDTH }
    ensures after { buffer.new ≡ laid buffer.old place (digits WIDTH number) }
{
    lay_item(buffer, place, &number_digits::<WIDTH>(number as u32))
}
