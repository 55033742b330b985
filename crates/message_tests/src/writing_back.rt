use super::parts::Parts;
use message::Contents;
use message_writer::{lay_carried, lay_field, lay_layout_start, message_length};
use std::alloc::{AllocError, Global};
use ticket::Room;

/// Lays the head and the layout as far as its fields, and tells the place behind them.
fn lay_start(buffer: &mut [u8], contents: &Contents) -> Option<usize> {
    let place = contents.head.write(buffer).ok()?;
    let layout_end = message_length(Room {
        fields: contents.needs.fields,
        texts: contents.needs.texts,
        carried: 0,
        bodies: 0,
    });
    let body_length = layout_end.checked_sub(65)?;
    let size = lay_layout_start(buffer, place, contents.needs.fields, body_length).ok()?;
    place.checked_add(size)
}

/// Lays every part of a message behind the one before, and tells the place behind the last.
fn lay_message(buffer: &mut [u8], contents: &Contents, parts: &Parts<'_>) -> Option<usize> {
    let fields_place = lay_start(buffer, contents)?;
    let layout_end = parts.fields.iter().try_fold(fields_place, |place, field| {
        let text = field.text.bytes;
        let size = lay_field(buffer, place, field.rectangle, field.formatting, text).ok()?;
        place.checked_add(size)
    })?;
    parts.carried.iter().try_fold(layout_end, |place, record| {
        let body = record.body.bytes;
        let size = lay_carried(buffer, place, &record.id, &record.version, body).ok()?;
        place.checked_add(size)
    })
}

/// Whether a message, written again from the parts that are read of it, has the same bytes; it has not where a part is
/// refused.
pub(crate) fn writes_back(
    heap: Global,
    message: &[u8],
    contents: &Contents,
    parts: Option<&Parts<'_>>,
) -> Result<bool, AllocError> {
    let size = message_length(contents.needs);
    let mut buffer = vec![in heap; 0; size]?;
    match parts.and_then(|parts| lay_message(buffer.as_mut_slice(), contents, parts)) {
        Some(end) => Ok(end == size && buffer.as_slice() == message),
        None => Ok(false),
    }
}
