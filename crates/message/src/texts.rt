ghost use Rattle.std.specs.Prelude.{◌≡◌, ◌+◌, ◌≤◌, length, IfOk, OnOk};
ghost use Rattle.field.specs.Areas.{area_of};
ghost use Rattle.message.specs.Parts.{StandsAt};
ghost use Rattle.message.specs.Texts.{Within};
ghost use Rattle.refusal.specs.Chain.{then};
ghost use Rattle.ticket.specs.Decoding.{forget, text_in};
ghost use Rattle.ticket.specs.Reading.{in_body, text_at};

use super::layout::Layout;
use super::part::Part;
use field::Rectangle;
use refusal::{ItemCause, ItemFault, RecordCause, RecordFault, Site};
use text_code::ReadingCode;
use wrap::{TextFault, check_text};

/// The characters of a text, and then its fit in a rectangle.
fn check<C: ReadingCode>(code: &C, rectangle: Rectangle, text: &[u8]) -> Result<(), TextFault>
    ensures value { result ≡ forget (text_in (C.ReadingCode.spells code.now) (area_of rectangle) text.now) }
    ensures within { Within (length text.now) result }
{
    check_text(code, text, rectangle.height, rectangle.width)
}

impl<'m> Layout<'m> {
    /// The text of a field, which stands at a site; a fault of it is told at its place in the message.
    pub(crate) fn text_at<C: ReadingCode>(
        self,
        code: &C,
        rectangle: Rectangle,
        site: Site,
        size: usize,
    ) -> Result<Part<'m>, RecordFault>
        ensures value { forget result ≡ then (in_body self.entry.end site size) (λ _. forget (text_at (C.ReadingCode.spells code.now) (area_of rectangle) self.entry.message.now site size)) }
        ensures inside { OnOk result (site.place + size ≤ self.entry.end) }
        ensures part { IfOk result (StandsAt self.entry.message site.place size) }
    {
        let text = self.part_at(site, size)?;
        match check(code, rectangle, text.bytes) {
            Ok(()) => Ok(text),
            Err(TextFault::Character(index)) => Err(RecordFault::Item(ItemFault {
                cause: ItemCause::Character,
                site: Site {
                    place: site.place + index,
                    ..site
                },
            })),
            Err(TextFault::TooLarge) => Err(RecordFault::Own(RecordCause::TextTooLarge, site)),
        }
    }
}
