use super::part::Part;
use field::{Formatting, Rectangle};

/// The items of a field, its text as a part of the message.
#[derive(Clone, Copy)]
pub struct FieldItems<'m> {
    pub rectangle: Rectangle,
    pub formatting: Formatting,
    pub text: Part<'m>,
}

/// The items of a carried record, its body as a part of the message.
#[derive(Clone, Copy)]
pub struct CarriedItems<'m> {
    pub id: [u8; 6],
    pub version: [u8; 2],
    pub body: Part<'m>,
}

/// The place behind some fields, and how many bytes their texts have together.
// no start of a next field: told are the bytes that were counted, not what is left of a room
#[derive(Clone, Copy)]
pub(crate) struct FieldsTotal {
    pub(crate) place: usize,
    pub(crate) bytes: usize,
}

/// How many carried records there are, and how many bytes their bodies have together.
// Not one type with the fields' total: there the place behind them is told, here their number.
#[derive(Clone, Copy)]
pub(crate) struct CarriedTotal {
    pub(crate) records: usize,
    pub(crate) bytes: usize,
}
