ghost use Rattle.std.specs.Prelude.{◌≡◌, ◌≤◌, length, IfOk};
ghost use Rattle.message.specs.Items.{seen};
ghost use Rattle.message.specs.Summaries.{summary_in, summary_of, ticket_summary};
ghost use Rattle.ticket.specs.Laws.{AcceptsExactly, BytesDetermine};
ghost use Rattle.ticket.specs.Reading.{bounded_at, count_at, standard_at, ticket_in};
ghost use Rattle.ticket.specs.Rooms.{room_of};

use super::carried::total_carried;
use super::contents::Contents;
use super::layout::Layout;
use head::Head;
use record::{RecordKind, read_start};
use refusal::{RecordCause, RecordFault, SheetCause, SheetFault, Site, demand};
use text_code::ReadingCode;
use ticket::Room;

impl<'m> Layout<'m> {
    /// The standard of the layout.
    fn check_standard(self) -> Result<(), RecordFault>
        ensures { result ≡ standard_at self.entry.message.now self.entry.end }
    {
        let site = Site::in_record(1, 65);
        let standard = self.part_at(site, 4)?;
        demand(
            standard.bytes == b"RCT2".as_slice(),
            RecordFault::Own(RecordCause::WrongStandard, site),
        )
    }

    /// A number of four digits, where it is no larger than the room for entries.
    fn bounded_at(self, site: Site, most: usize) -> Result<usize, SheetFault>
        ensures { result ≡ bounded_at self.entry.message.now self.entry.end site most }
    {
        let count = self.number_at(site, 4)?;
        demand(
            count <= most,
            SheetFault::Own(SheetCause::TooManyEntries, site),
        )?;
        Ok(count)
    }

    /// The number of its fields.
    fn count_fields(self, room: Room) -> Result<usize, SheetFault>
        ensures { result ≡ count_at self.entry.message.now room self.entry.end }
    {
        self.check_standard()?;
        self.bounded_at(Site::in_record(1, 69), room.fields)
    }
}

/// What a message holds, where there is room for it.
fn contents_of<C: ReadingCode>(message: &[u8], code: &C, room: Room) -> Result<Contents, SheetFault>
    requires { room.carried ≤ 8 }
    ensures value { seen summary_of result ≡ summary_in (C.ReadingCode.spells code.now) room message.now }
    ensures inside { IfOk result (λ x. x.layout_end ≤ length message.now) }
{
    let head = Head::read(message)?;
    let end = 65 + read_start(message, RecordKind::Layout, 1, 53)?;
    let layout = Layout { message, end };
    let fields = layout.count_fields(room)?;
    let texts = layout.total_fields(code, room.texts, fields)?;
    demand(
        end <= texts.place,
        RecordFault::Own(RecordCause::WrongLength, Site::in_record(1, texts.place)),
    )?;
    let carried = total_carried(message, room.carried, room.bodies, end)?;
    Ok(Contents {
        head,
        needs: Room {
            fields,
            texts: texts.bytes,
            carried: carried.records,
            bodies: carried.bytes,
        },
        layout_end: end,
    })
}

// message and code stay two parameters: a caller has them apart, and lends each for itself
/// Checks a whole message from left to right, and tells what it holds. A room counts up to the largest.
pub fn read_message<C: ReadingCode>(
    message: &[u8],
    code: &C,
    room: Room,
) -> Result<Contents, SheetFault>
    ensures value { seen summary_of result ≡ seen (ticket_summary (C.ReadingCode.spells code.now)) (ticket_in (C.ReadingCode.spells code.now) (room_of room) message.now) }
    ensures inside { IfOk result (λ x. x.layout_end ≤ length message.now) }
    ensures exactly { AcceptsExactly (C.ReadingCode.spells code.now) (room_of room) message.now }
    ensures alone { BytesDetermine (C.ReadingCode.spells code.now) }
{
    contents_of(message, code, room.capped())
}
