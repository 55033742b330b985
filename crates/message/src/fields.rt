ghost use Rattle.std.specs.Prelude.{◌≡◌, ◌+◌, ◌≤◌, min, length, IfOk};
ghost use Rattle.message.specs.Items.{seen, shape_at, shape_of};
ghost use Rattle.message.specs.Parts.{StandsIn};
ghost use Rattle.message.specs.Totals.{behind, numbered_at};
ghost use Rattle.ticket.specs.Reading.{field_at, fields_at};

use super::items::{FieldItems, FieldsTotal};
use super::layout::{Layout, in_field};
use super::start::EntryStart;
use refusal::{SheetCause, SheetFault, demand};
use text_code::ReadingCode;

impl<'m> Layout<'m> {
    /// A field of the layout: its items, where there is room for its text.
    fn field_at<C: ReadingCode>(
        self,
        code: &C,
        start: EntryStart,
    ) -> Result<FieldItems<'m>, SheetFault>
        ensures value { seen shape_of result ≡ seen (shape_at start.place) (field_at (C.ReadingCode.spells code.now) self.entry.message.now self.entry.end start.room start.number start.place) }
        ensures inside { IfOk result (λ x. x.text.place + length x.text.bytes.now ≤ self.entry.end) }
        ensures room { IfOk result (λ x. length x.text.bytes.now ≤ start.room) }
        ensures part { IfOk result (λ x. StandsIn self.entry.message x.text) }
    {
        let EntryStart {
            number,
            place,
            room,
        } = start;
        let rectangle = self.rectangle_at(start)?;
        let formatting = self.formatting_at(in_field(number, place + 8))?;
        let length_site = in_field(number, place + 9);
        let text_length = self.number_at(length_site, 4)?;
        demand(
            text_length <= room,
            SheetFault::Own(SheetCause::MemoryExceeded, length_site),
        )?;
        let text_site = in_field(number, place + 13);
        let text = self.text_at(code, rectangle, text_site, text_length)?;
        Ok(FieldItems {
            rectangle,
            formatting,
            text,
        })
    }

    // code and room stay two parameters: a caller lends the one, and tells the other for each reading
    /// So many fields of the layout, the first of which begins at place 73: the place behind them, and how many bytes
    /// their texts have together.
    pub(crate) fn total_fields<C: ReadingCode>(
        self,
        code: &C,
        room: usize,
        count: usize,
    ) -> Result<FieldsTotal, SheetFault>
        ensures value { result ≡ seen (behind 73 0) (fields_at (C.ReadingCode.spells code.now) self.entry.message.now self.entry.end room count 0 73) }
        ensures room { IfOk result (λ x. x.bytes ≤ room) }
    {
        let mut start = EntryStart::of_fields(room);
        for _ in 0..count {
            let field = self.field_at(code, start)?;
            start = start.behind(field.text);
        }
        Ok(FieldsTotal {
            place: start.place,
            bytes: room - start.room,
        })
    }

    /// The field with a number, where it stands in the layout behind those before it.
    pub(crate) fn numbered_field<C: ReadingCode>(
        self,
        code: &C,
        room: usize,
        number: usize,
    ) -> Result<FieldItems<'m>, SheetFault>
        ensures value { seen shape_of result ≡ numbered_at (C.ReadingCode.spells code.now) self.entry.message.now self.entry.end room number }
        ensures part { IfOk result (λ x. StandsIn self.entry.message x.text) }
    {
        let before = self.total_fields(code, room, number)?;
        let start = EntryStart {
            number,
            place: before.place,
            room: room - before.bytes,
        };
        self.field_at(code, start)
    }
}

/// A field of the layout, whose body ends at a place: its items, where there is room for its text. The field's number
/// is told where it is refused.
pub fn read_field<'m, C: ReadingCode>(
    message: &'m [u8],
    code: &C,
    end: usize,
    start: EntryStart,
) -> Result<FieldItems<'m>, SheetFault>
    ensures value { seen shape_of result ≡ seen (shape_at start.place) (field_at (C.ReadingCode.spells code.now) message.now (min end (length message.now)) start.room start.number start.place) }
    ensures inside { IfOk result (λ x. x.text.place + length x.text.bytes.now ≤ min end (length message.now)) }
    ensures room { IfOk result (λ x. length x.text.bytes.now ≤ start.room) }
    ensures part { IfOk result (λ x. StandsIn message.entry x.text) }
{
    let end = end.min(message.len());
    Layout { message, end }.field_at(code, start)
}
