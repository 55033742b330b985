use super::failure::Failure;
use super::one_line::one_line;
use field::Rectangle;
use message::{Contents, EntryStart, FieldItems, read_field};
use std::io;
use text_code::Utf8;

// a line of this program alone, so no Display of the library's type
fn print_field(rt: &HostRuntime, field: &FieldItems) -> io::Result<()> {
    let Rectangle {
        line,
        column,
        height,
        width,
    } = field.rectangle;
    let formatting = field.formatting.value;
    let text = one_line(rt.alloc(), field.text.bytes)?;
    println!(rt;
        "field line {line} column {column} height {height} width {width} formatting {formatting} text {text}"
    )
}

// a walk of its own for each kind of part: a field is read with a code and an end, a record without
/// The fields of a message that holds these contents, one to a line.
pub(crate) fn print_fields(
    rt: &HostRuntime,
    message: &[u8],
    contents: &Contents,
) -> Result<(), Failure> {
    let mut start = EntryStart::of_fields(contents.needs.texts);
    for _ in 0..contents.needs.fields {
        let field = read_field(message, &Utf8, contents.layout_end, start)?;
        print_field(rt, &field)?;
        start = start.behind(field.text);
    }
    Ok(())
}
