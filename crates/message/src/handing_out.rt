ghost use Rattle.std.specs.Prelude.{◌≡◌, IfOk};
ghost use Rattle.message.specs.Items.{seen, shape_of};
ghost use Rattle.message.specs.Parts.{StandsIn, TextAnswer, shape_in};
ghost use Rattle.ticket.specs.Reading.{ticket_in};
ghost use Rattle.ticket.specs.Rooms.{largest, room_of};

use super::items::FieldItems;
use super::layout::Layout;
use super::part::Part;
use super::reading::read_message;
use refusal::{SheetCause, SheetFault, Site, demand};
use text_code::ReadingCode;
use ticket::Room;

/// The field with a number, where the whole message is one of a ticket that has it.
fn find_field<'m, C: ReadingCode>(
    message: &'m [u8],
    code: &C,
    number: usize,
) -> Result<FieldItems<'m>, SheetFault>
    ensures value { seen shape_of result ≡ shape_in (C.ReadingCode.spells code.now) message.now number }
    ensures part { IfOk result (λ x. StandsIn message.entry x.text) }
{
    let room = Room::largest();
    let contents = read_message(message, code, room)?;
    let site = Site {
        record: 0,
        field: number,
        place: 0,
    };
    demand(
        number < contents.needs.fields,
        SheetFault::Own(SheetCause::NoSuchEntry, site),
    )?;
    let layout = Layout {
        message,
        end: contents.layout_end,
    };
    layout.numbered_field(code, room.texts, number)
}

/// The text of the field with a number, as a part of the message, which is checked whole before.
pub fn field_text<'m, C: ReadingCode>(
    message: &'m [u8],
    code: &C,
    number: usize,
) -> Result<Part<'m>, SheetFault>
    ensures answer { TextAnswer (C.ReadingCode.spells code.now) message.entry number (ticket_in (C.ReadingCode.spells code.now) (room_of largest) message.now) result }
{
    let field = find_field(message, code, number)?;
    Ok(field.text)
}
