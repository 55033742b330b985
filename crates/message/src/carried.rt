ghost use Rattle.std.specs.Prelude.{◌≡◌, ◌+◌, ◌≤◌, length, IfOk};
ghost use Rattle.message.specs.Items.{carried_of, seen};
ghost use Rattle.message.specs.Parts.{StandsIn};
ghost use Rattle.message.specs.Totals.{total};
ghost use Rattle.ticket.specs.Reading.{carried_at, carried_from};

use super::items::{CarriedItems, CarriedTotal};
use super::part::Part;
use super::start::EntryStart;
use record::{RecordKind, read_start};
use refusal::{SheetCause, SheetFault, Site, demand};

/// A carried record: its items, where there is room for its body. Its number among the records of the message is told
/// where it is refused.
pub fn read_carried<'m>(
    message: &'m [u8],
    start: EntryStart,
) -> Result<CarriedItems<'m>, SheetFault>
    ensures value { seen carried_of result ≡ carried_at message.now start.room start.number start.place }
    ensures inside { IfOk result (λ x. x.body.place + length x.body.bytes.now ≤ length message.now) }
    ensures behind { IfOk result (λ x. x.body.place ≡ start.place + 12) }
    ensures room { IfOk result (λ x. length x.body.bytes.now ≤ start.room) }
    ensures part { IfOk result (λ x. StandsIn message.entry x.body) }
{
    let EntryStart {
        number,
        place,
        room,
    } = start;
    let body_length = read_start(message, RecordKind::Carried, number, place)?;
    let body_place = place + 12;
    demand(
        body_length <= room,
        SheetFault::Own(
            SheetCause::MemoryExceeded,
            Site::in_record(number, body_place),
        ),
    )?;
    Ok(CarriedItems {
        id: *message[place..place + 6].as_array().unwrap(),
        version: *message[place + 6..place + 8].as_array().unwrap(),
        body: Part::of(message, body_place, body_length),
    })
}

/// The carried records from a place to the end of the message, where there is room for so many of them and for so
/// many bytes of their bodies.
pub(crate) fn total_carried(
    message: &[u8],
    most: usize,
    room: usize,
    place: usize,
) -> Result<CarriedTotal, SheetFault>
    requires { most ≤ 8 }
    ensures { result ≡ seen (total 0 0) (carried_from message.now room most 2 place) }
{
    let mut start = EntryStart::of_carried(place, room);
    for records in 0..most {
        if message.len() <= start.place {
            return Ok(CarriedTotal {
                records,
                bytes: room - start.room,
            });
        }
        let next = read_carried(message, start)?;
        start = start.behind(next.body);
    }
    demand(
        message.len() <= start.place,
        SheetFault::Own(
            SheetCause::TooManyEntries,
            Site::in_record(start.number, start.place),
        ),
    )?;
    Ok(CarriedTotal {
        records: most,
        bytes: room - start.room,
    })
}
