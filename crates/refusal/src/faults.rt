ghost use Rattle.std.specs.Prelude.{◌≡◌};
ghost use Rattle.refusal.specs.declared.faults.RecordFault.TheVariants.{Item};
ghost use Rattle.refusal.specs.declared.faults.SheetFault.TheVariants.{Record};

use super::causes::{ItemCause, RecordCause, SheetCause};

/// Where a fault lies, each counted from 0 and 0 where it does not apply: the record in the message
/// (the head is 0), the field in the layout, and the byte in the message.
// zeros, no Option: three of the five figures of a refusal, as they are told
#[derive(Clone, Copy, PartialEq, Eq, Debug)]
pub struct Site {
    pub record: usize,
    pub field: usize,
    pub place: usize,
}

impl Site {
    /// A place in a record, outside the fields of a layout.
    pub fn in_record(number: usize, place: usize) -> Site
        ensures { result ≡ record { «record» = number; field = 0; place = place } }
    {
        Site {
            record: number,
            field: 0,
            place,
        }
    }
}

/// Layer 1.
#[derive(Clone, Copy, PartialEq, Eq, Debug)]
pub struct ItemFault {
    pub cause: ItemCause,
    pub site: Site,
}

/// Layer 2: a record's own fault, or that of one of its items.
#[derive(Clone, Copy, PartialEq, Eq, Debug)]
pub enum RecordFault {
    Item(ItemFault),
    Own(RecordCause, Site),
}

/// Layer 3: a sheet's own fault, or that of a record.
// a type beside RecordFault, not one with parameters: a variant's name says whose fault it holds
#[derive(Clone, Copy, PartialEq, Eq, Debug)]
pub enum SheetFault {
    Record(RecordFault),
    Own(SheetCause, Site),
}

impl From<ItemFault> for RecordFault {
    ghost from_gives = { λ x r. r ≡ Item x };

    fn from(fault: ItemFault) -> RecordFault {
        RecordFault::Item(fault)
    }
}

impl From<RecordFault> for SheetFault {
    ghost from_gives = { λ x r. r ≡ Record x };

    fn from(fault: RecordFault) -> SheetFault {
        SheetFault::Record(fault)
    }
}
