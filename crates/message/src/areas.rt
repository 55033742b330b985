ghost use Rattle.std.specs.Prelude.{◌≡◌, ◌+◌, ◌≤◌, ◌&&◌, IfOk, OnOk, nat_le};
ghost use Rattle.field.specs.Areas.{area_of};
ghost use Rattle.field.specs.Formattings.{lawful_formatting};
ghost use Rattle.message.specs.Items.{seen, formatting_value};
ghost use Rattle.refusal.specs.declared.causes.ItemCause.TheVariants.{Rectangle as RectangleCause};
ghost use Rattle.ticket.specs.Reading.{area_at, tested_at};

use super::layout::{Layout, in_field};
use super::start::EntryStart;
use field::{Formatting, Rectangle};
use refusal::{ItemCause, ItemFault, RecordFault, Site, demand};

fn rectangle_fault(site: Site) -> ItemFault
    ensures { result ≡ record { cause = RectangleCause; site = site } }
{
    ItemFault {
        cause: ItemCause::Rectangle,
        site,
    }
}

impl<'m> Layout<'m> {
    /// A size of a rectangle: at least 1, and no more than is left of the area from where it begins.
    fn size_at(self, site: Site, begin: usize, most: usize) -> Result<usize, RecordFault>
        requires { (begin ≤ 99) × (most ≤ 72) }
        ensures value { result ≡ tested_at self.entry.message.now self.entry.end site 2 (λ n. nat_le 1 n && nat_le (begin + n) most) }
        ensures inside { OnOk result (site.place + 2 ≤ self.entry.end) }
        ensures bound { IfOk result (λ n. (1 ≤ n) × (begin + n ≤ most)) }
    {
        let size = self.number_at(site, 2)?;
        demand(1 <= size && begin + size <= most, rectangle_fault(site))?;
        Ok(size)
    }

    /// The rectangle of a field.
    pub(crate) fn rectangle_at(self, start: EntryStart) -> Result<Rectangle, RecordFault>
        ensures value { seen area_of result ≡ area_at self.entry.message.now self.entry.end start.number start.place }
        ensures inside { OnOk result (start.place + 8 ≤ self.entry.end) }
    {
        let EntryStart { number, place, .. } = start;
        let line = self.number_at(in_field(number, place), 2)?;
        let column = self.number_at(in_field(number, place + 2), 2)?;
        let height = self.size_at(in_field(number, place + 4), line, 15)?;
        let width = self.size_at(in_field(number, place + 6), column, 72)?;
        Ok(Rectangle {
            line,
            column,
            height,
            width,
        })
    }

    /// The formatting of a field, which stands at a site.
    pub(crate) fn formatting_at(self, site: Site) -> Result<Formatting, RecordFault>
        ensures value { seen formatting_value result ≡ tested_at self.entry.message.now self.entry.end site 1 lawful_formatting }
        ensures inside { OnOk result (site.place + 1 ≤ self.entry.end) }
    {
        let value = self.number_at(site, 1)?;
        demand(value <= 7, rectangle_fault(site))?;
        Ok(Formatting { value: value as u8 })
    }
}
