ghost use Rattle.std.specs.Prelude.{◌≡◌, ◌+◌, ◌≤◌, length, OnOk};
ghost use Rattle.record.specs.Start.{in_record};
ghost use Rattle.refusal.specs.declared.faults.SheetFault.TheVariants.{Own};
ghost use Rattle.message_writer.specs.Layings.{counted, within};

use lists::lies_within;
use refusal::{SheetCause, SheetFault, Site, demand};

fn fault_of(cause: SheetCause) -> SheetFault
    ensures { result ≡ Own cause (in_record 0 0) }
{
    SheetFault::Own(cause, Site::in_record(0, 0))
}

/// Four digits write the number.
pub(crate) fn check_count(cause: SheetCause, number: usize) -> Result<(), SheetFault>
    ensures value { result ≡ counted cause number }
    ensures bound { OnOk result (number ≤ 9999) }
{
    demand(number <= 9999, fault_of(cause))
}

/// So many bytes from a place on lie within the buffer.
pub(crate) fn check_within(buffer: &[u8], place: usize, size: usize) -> Result<(), SheetFault>
    ensures value { result ≡ within buffer.now place size }
    ensures bound { OnOk result (place + size ≤ length buffer.now) }
{
    let inside = lies_within(place, size, buffer.len());
    demand(inside, fault_of(SheetCause::BufferTooShort))
}
