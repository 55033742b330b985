ghost use Rattle.std.specs.Prelude.{◌≡◌, ◌+◌, ◌^◌, ◌<◌, ◌≤◌, length, IfOk, OnOk};
ghost use Rattle.message.specs.Parts.{StandsAt};
ghost use Rattle.ticket.specs.Decoding.{forget};
ghost use Rattle.ticket.specs.Reading.{in_body, in_field, number_at};

use super::part::Part;
use lists::lies_within;
use octets::read_number;
use refusal::{ItemCause, ItemFault, RecordCause, RecordFault, Site, demand};

/// A place in a field of the layout.
pub(crate) fn in_field(number: usize, place: usize) -> Site
    ensures { result ≡ in_field number place }
{
    Site {
        record: 1,
        field: number,
        place,
    }
}

/// The layout of a message, whose body ends at a place.
// the whole message and an end, not its front alone: what is handed out is a part of the message that was lent
#[derive(Clone, Copy)]
pub(crate) struct Layout<'m> {
    pub(crate) message: &'m [u8],
    pub(crate) end: usize,
    ghost inside: { end ≤ length message.now },
}

impl<'m> Layout<'m> {
    // the clauses `inside` and `part` tell of two values in one fact, which no invariant of one can state
    /// An item of the layout, which ends no later than the layout's body.
    pub(crate) fn part_at(self, site: Site, width: usize) -> Result<Part<'m>, RecordFault>
        ensures value { forget result ≡ in_body self.entry.end site width }
        ensures inside { OnOk result (site.place + width ≤ self.entry.end) }
        ensures part { IfOk result (StandsAt self.entry.message site.place width) }
    {
        let inside = lies_within(site.place, width, self.end);
        demand(inside, RecordFault::Own(RecordCause::WrongLength, site))?;
        Ok(Part::of(self.message, site.place, width))
    }

    /// A number of the layout.
    pub(crate) fn number_at(self, site: Site, width: usize) -> Result<usize, RecordFault>
        ensures value { result ≡ number_at self.entry.message.now self.entry.end site width }
        ensures inside { OnOk result (site.place + width ≤ self.entry.end) }
        ensures bound { IfOk result (λ n. n < 10 ^ width) }
    {
        let digits = self.part_at(site, width)?;
        let fault = ItemFault {
            cause: ItemCause::NoDigit,
            site,
        };
        let number = read_number(digits.bytes, fault)?;
        Ok(number as usize)
    }
}
