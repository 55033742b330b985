ghost use Rattle.std.specs.Prelude.{◌≡◌, ◌+◌, ◌≤◌, length};
ghost use Rattle.refusal.specs.Chain.{then};
ghost use Rattle.refusal.specs.declared.causes.SheetCause.TheVariants.{MemoryExceeded, TooManyEntries};
ghost use Rattle.field.specs.Areas.{area_of};
ghost use Rattle.message_writer.specs.Parts.{BytesOfField, StartsLayout, field_bytes_of, field_items, layout_start, start_items};
ghost use Rattle.message_writer.specs.Layings.{after, counted, laid_in_turn, told};

use super::checks::{check_count, check_within};
use super::items::{lay_item, lay_number};
use field::{Formatting, Rectangle};
use refusal::{SheetCause, SheetFault};

// a buffer and a place in it stay two parameters: the buffer is lent for one call, and each call has another place
// apart from lay_layout_start, as the others like it: work without laws needs no proof file, so a wrong item fails here
fn lay_start_items(buffer: &mut [u8], place: usize, fields: usize, body_length: usize)
    requires { (place + 20 ≤ length buffer.old) × (fields ≤ 9999) × (body_length ≤ 9999) }
    ensures { buffer.new ≡ laid_in_turn buffer.old place (start_items fields body_length) }
{
    let size_place = lay_item(buffer, place, b"U_TLAY01");
    let body_place = lay_number::<4>(buffer, size_place, body_length);
    let count_place = lay_item(buffer, body_place, b"RCT2");
    lay_number::<4>(buffer, count_place, fields);
}

/// Lays the layout record as far as its fields, 20 bytes, over the buffer from a place on and tells their number.
/// Refused are more than 9,999 fields (13), a body of more than 9,999 bytes (14) and a buffer too short (16); the
/// buffer is then as it was.
pub fn lay_layout_start(
    buffer: &mut [u8],
    place: usize,
    fields: usize,
    body_length: usize,
) -> Result<usize, SheetFault>
    ensures value { result ≡ then (counted TooManyEntries fields) (λ _. then (counted MemoryExceeded body_length) (λ _. told buffer.old place 20)) }
    ensures after { buffer.new ≡ after result buffer.old place (layout_start fields body_length) }
    ensures layout { StartsLayout fields body_length }
{
    check_count(SheetCause::TooManyEntries, fields)?;
    check_count(SheetCause::MemoryExceeded, body_length)?;
    check_within(buffer, place, 20)?;
    lay_start_items(buffer, place, fields, body_length);
    Ok(20)
}

fn lay_field_items(
    buffer: &mut [u8],
    place: usize,
    rectangle: Rectangle,
    formatting: Formatting,
    text: &[u8],
)
    requires { (place + (13 + length text.now) ≤ length buffer.old) × (length text.now ≤ 9999) }
    ensures { buffer.new ≡ laid_in_turn buffer.old place (field_items (area_of rectangle) formatting.value text.now) }
{
    let column_place = lay_number::<2>(buffer, place, rectangle.line);
    let height_place = lay_number::<2>(buffer, column_place, rectangle.column);
    let width_place = lay_number::<2>(buffer, height_place, rectangle.height);
    let formatting_place = lay_number::<2>(buffer, width_place, rectangle.width);
    let size_place = lay_number::<1>(buffer, formatting_place, formatting.value as usize);
    let text_place = lay_number::<4>(buffer, size_place, text.len());
    lay_item(buffer, text_place, text);
}

/// Lays a field, 13 bytes and its text, over the buffer from a place on and tells their number. The text is given by
/// its encoded bytes. Refused are a text of more than 9,999 bytes (14) and a buffer too short (16); the buffer is then
/// as it was.
pub fn lay_field(
    buffer: &mut [u8],
    place: usize,
    rectangle: Rectangle,
    formatting: Formatting,
    text: &[u8],
) -> Result<usize, SheetFault>
    ensures value { result ≡ then (counted MemoryExceeded (length text.now)) (λ _. told buffer.old place (13 + length text.now)) }
    ensures after { buffer.new ≡ after result buffer.old place (field_bytes_of (area_of rectangle) formatting.value text.now) }
    ensures field { BytesOfField (area_of rectangle) formatting.value text.now }
{
    check_count(SheetCause::MemoryExceeded, text.len())?;
    check_within(buffer, place, 13 + text.len())?;
    lay_field_items(buffer, place, rectangle, formatting, text);
    Ok(13 + text.len())
}
