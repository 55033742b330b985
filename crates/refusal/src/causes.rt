ghost use Rattle.std.specs.Prelude.{◌≡◌};
ghost use Rattle.refusal.specs.Numbers.{item_number, record_number, sheet_number};

/// What can be wrong with one item.
#[derive(Clone, Copy, PartialEq, Eq, Debug)]
pub enum ItemCause {
    /// no digit in a record length or a layout number
    NoDigit,
    /// an unlawful item of a head
    HeadItem,
    /// an unlawful rectangle or formatting
    Rectangle,
    /// a malformed, unspelled or forbidden character
    Character,
}

/// What can be wrong with a record whose items are lawful one by one.
#[derive(Clone, Copy, PartialEq, Eq, Debug)]
pub enum RecordCause {
    /// too few bytes left for an item of a record's first twelve, or for its body
    TooFewBytes,
    WrongId,
    WrongVersion,
    /// the record's length disagrees with its content
    WrongLength,
    /// a layout standard other than RCT2
    WrongStandard,
    /// a text that does not fit its rectangle
    TextTooLarge,
}

/// What can be wrong with a call on a sheet whose items and records are lawful.
#[derive(Clone, Copy, PartialEq, Eq, Debug)]
pub enum SheetCause {
    /// no such field or carried record
    NoSuchEntry,
    /// no ticket was begun or opened
    NoTicket,
    TooManyEntries,
    /// texts or carried bodies would exceed their memory
    MemoryExceeded,
    /// a page of under 15 lines or 72 columns
    PageTooSmall,
    /// a buffer shorter than the message
    BufferTooShort,
}

impl From<ItemCause> for u8 {
    ghost from_gives = { λ x r. r ≡ item_number x };

    fn from(cause: ItemCause) -> u8 {
        match cause {
            ItemCause::NoDigit => 4,
            ItemCause::HeadItem => 7,
            ItemCause::Rectangle => 8,
            ItemCause::Character => 9,
        }
    }
}

impl From<RecordCause> for u8 {
    ghost from_gives = { λ x r. r ≡ record_number x };

    fn from(cause: RecordCause) -> u8 {
        match cause {
            RecordCause::TooFewBytes => 1,
            RecordCause::WrongId => 2,
            RecordCause::WrongVersion => 3,
            RecordCause::WrongLength => 5,
            RecordCause::WrongStandard => 6,
            RecordCause::TextTooLarge => 10,
        }
    }
}

impl From<SheetCause> for u8 {
    ghost from_gives = { λ x r. r ≡ sheet_number x };

    fn from(cause: SheetCause) -> u8 {
        match cause {
            SheetCause::NoSuchEntry => 11,
            SheetCause::NoTicket => 12,
            SheetCause::TooManyEntries => 13,
            SheetCause::MemoryExceeded => 14,
            SheetCause::PageTooSmall => 15,
            SheetCause::BufferTooShort => 16,
        }
    }
}
