ghost use Rattle.std.specs.Prelude.{◌≡◌, ◌+◌, ◌≤◌, length};
ghost use Rattle.refusal.specs.Chain.{then};
ghost use Rattle.refusal.specs.declared.causes.SheetCause.TheVariants.{MemoryExceeded};
ghost use Rattle.ticket.specs.Tickets.{record_bytes};
ghost use Rattle.message_writer.specs.Layings.{after, counted, laid_in_turn, told};
ghost use Rattle.message_writer.specs.Parts.{record_items};

use super::checks::{check_count, check_within};
use super::items::{lay_item, lay_number};
use refusal::{SheetCause, SheetFault};

fn lay_record_items(buffer: &mut [u8], place: usize, id: &[u8; 6], version: &[u8; 2], body: &[u8])
    requires { (place + (12 + length body.now) ≤ length buffer.old) × (length body.now ≤ 9999) }
    ensures { buffer.new ≡ laid_in_turn buffer.old place (record_items id.now version.now body.now) }
{
    let version_place = lay_item(buffer, place, id);
    let size_place = lay_item(buffer, version_place, version);
    let body_place = lay_number::<4>(buffer, size_place, body.len());
    lay_item(buffer, body_place, body);
}

/// Lays a carried record, 12 bytes and its body, over the buffer from a place on and tells their number. Refused are a
/// body of more than 9,999 bytes (14) and a buffer too short (16); the buffer is then as it was.
pub fn lay_carried(
    buffer: &mut [u8],
    place: usize,
    id: &[u8; 6],
    version: &[u8; 2],
    body: &[u8],
) -> Result<usize, SheetFault>
    ensures value { result ≡ then (counted MemoryExceeded (length body.now)) (λ _. told buffer.old place (12 + length body.now)) }
    ensures after { buffer.new ≡ after result buffer.old place (record_bytes id.now version.now body.now) }
{
    check_count(SheetCause::MemoryExceeded, body.len())?;
    check_within(buffer, place, 12 + body.len())?;
    lay_record_items(buffer, place, id, version, body);
    Ok(12 + body.len())
}
