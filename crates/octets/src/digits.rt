ghost use Rattle.std.specs.Prelude.{◌≡◌, ◌^◌, ◌<◌, length, IfOk};
ghost use Rattle.octets.specs.Digits.{digits, numeral, digit_value};

use refusal::ItemFault;

/// The value of one digit, or the given fault.
fn read_digit(byte: u8, fault: ItemFault) -> Result<u32, ItemFault>
    ensures { result ≡ digit_value fault byte }
{
    (byte as char).to_digit(10).ok_or(fault)
}

// no `parse` here and no `format` below: the library's take a sign, and fill no slice of a width
/// The number that at most nine digits write, or the given fault.
pub fn read_number(item: &[u8], fault: ItemFault) -> Result<u32, ItemFault>
    ensures value { result ≡ numeral fault item.now }
    ensures bound { IfOk result (λ n. n < 10 ^ length item.now) }
{
    if item.len() > 9 {
        return Err(fault);
    }
    let mut value = 0;
    for byte in item {
        value = value * 10 + read_digit(*byte, fault)?;
    }
    Ok(value)
}

/// Fills the item with the last digits of a number, zeros before them.
pub fn write_number(item: &mut [u8], number: u32)
    ensures { item.new ≡ digits (length item.old) number }
{
    let mut rest = number;
    // by index: nothing is known of the elements behind a slice's iter_mut
    for i in (0..item.len()).rev() {
        item[i] = b'0' + (rest % 10) as u8;
        rest /= 10;
    }
}

/// The last digits of a number, as many as the array has places, zeros before them.
pub fn number_digits<const WIDTH: usize>(number: u32) -> [u8; WIDTH]
    ensures { result ≡ digits WIDTH number }
{
    let mut item = [b'0'; WIDTH];
    write_number(&mut item, number);
    item
}
