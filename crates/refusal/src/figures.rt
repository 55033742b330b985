ghost use Rattle.std.specs.Prelude.{◌≡◌, Some};
ghost use Rattle.refusal.specs.Figures.{at, item_figures, record_figures, sheet_figures, line};

use super::faults::{ItemFault, RecordFault, SheetFault, Site};
use std::fmt;

/// The five figures of a refusal.
// numbers and zeros, as the five figures of a refusal are told
#[derive(Clone, Copy, PartialEq, Eq, Debug)]
pub struct Refusal {
    pub number: u8,
    pub layer: u8,
    pub record: usize,
    pub field: usize,
    pub place: usize,
}

fn refusal_at(number: u8, layer: u8, site: Site) -> Refusal
    ensures { result ≡ at number layer site }
{
    Refusal {
        number,
        layer,
        record: site.record,
        field: site.field,
        place: site.place,
    }
}

impl From<ItemFault> for Refusal {
    ghost from_gives = { λ x r. r ≡ item_figures x };

    fn from(fault: ItemFault) -> Refusal {
        refusal_at(u8::from(fault.cause), 1, fault.site)
    }
}

impl From<RecordFault> for Refusal {
    ghost from_gives = { λ x r. r ≡ record_figures x };

    fn from(fault: RecordFault) -> Refusal {
        match fault {
            RecordFault::Item(fault) => Refusal::from(fault),
            RecordFault::Own(cause, site) => refusal_at(u8::from(cause), 2, site),
        }
    }
}

impl From<SheetFault> for Refusal {
    ghost from_gives = { λ x r. r ≡ sheet_figures x };

    fn from(fault: SheetFault) -> Refusal {
        match fault {
            SheetFault::Record(fault) => Refusal::from(fault),
            SheetFault::Own(cause, site) => refusal_at(u8::from(cause), 3, site),
        }
    }
}

impl fmt::Display for Refusal {
    ghost output = { λ x. Some (line x) };

    fn fmt<W: fmt::Write>(&self, f: &mut fmt::Formatter<W>) -> fmt::Result {
        let number = self.number;
        let layer = self.layer;
        let place = self.place;
        write!(f, "refused {number} layer {layer} place {place}")
    }
}
