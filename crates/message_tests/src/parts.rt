use message::{CarriedItems, Contents, EntryStart, FieldItems, read_carried, read_field};
use std::alloc::{AllocError, Global};
use text_code::ReadingCode;

/// The fields and carried records of a message, read one by one.
#[derive(Drop)]
pub(crate) struct Parts<'m> {
    pub(crate) fields: Vec<FieldItems<'m>>,
    pub(crate) carried: Vec<CarriedItems<'m>>,
}

// a walk of its own for each kind of part: a field is read with a code and an end, a record without;
// heap, message and contents are handed on as `main` has them
/// The fields, or none where one is refused.
fn read_fields<'m, C: ReadingCode>(
    heap: Global,
    message: &'m [u8],
    code: &C,
    contents: &Contents,
) -> Result<Option<Vec<FieldItems<'m>>>, AllocError> {
    let mut fields = Vec::new(heap);
    let mut start = EntryStart::of_fields(contents.needs.texts);
    for _ in 0..contents.needs.fields {
        let Ok(field) = read_field(message, code, contents.layout_end, start) else {
            return Ok(None);
        };
        start = start.behind(field.text);
        fields.push(field)?;
    }
    Ok(Some(fields))
}

/// The carried records, or none where one is refused.
fn read_records<'m>(
    heap: Global,
    message: &'m [u8],
    contents: &Contents,
) -> Result<Option<Vec<CarriedItems<'m>>>, AllocError> {
    let mut records = Vec::new(heap);
    let mut start = EntryStart::of_carried(contents.layout_end, contents.needs.bodies);
    for _ in 0..contents.needs.carried {
        let Ok(record) = read_carried(message, start) else {
            return Ok(None);
        };
        start = start.behind(record.body);
        records.push(record)?;
    }
    Ok(Some(records))
}

impl<'m> Parts<'m> {
    /// The parts of a message, or none where one is refused.
    pub(crate) fn read<C: ReadingCode>(
        heap: Global,
        message: &'m [u8],
        code: &C,
        contents: &Contents,
    ) -> Result<Option<Parts<'m>>, AllocError> {
        let Some(fields) = read_fields(heap, message, code, contents)? else {
            return Ok(None);
        };
        let Some(carried) = read_records(heap, message, contents)? else {
            return Ok(None);
        };
        Ok(Some(Parts { fields, carried }))
    }

    /// Whether the fields fill the layout and the carried records the rest of the message, and both have the bytes
    /// that were counted.
    pub(crate) fn agree(&self, message: &[u8], contents: &Contents) -> bool {
        let fields_end = self.fields.iter().fold(
            EntryStart::of_fields(contents.needs.texts),
            |start, field| start.behind(field.text),
        );
        let carried_end = self.carried.iter().fold(
            EntryStart::of_carried(contents.layout_end, contents.needs.bodies),
            |start, record| start.behind(record.body),
        );
        fields_end.place == contents.layout_end
            && fields_end.room == 0
            && carried_end.place == message.len()
            && carried_end.room == 0
    }
}
