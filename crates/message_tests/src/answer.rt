use super::case::{Case, Code};
use super::parts::Parts;
use super::writing_back::writes_back;
use message::{Contents, read_message};
use refusal::Refusal;
use std::io;
use text_code::{Latin1, ReadingCode, Utf8};
use ticket::Room;

// lines of this program alone, so no Display of the library's types
fn print_contents(rt: &HostRuntime, contents: &Contents) -> io::Result<()> {
    let Room {
        fields,
        texts,
        carried,
        bodies,
    } = contents.needs;
    println!(rt; "ok fields {fields} text {texts} carried {carried} bodies {bodies}")
}

// a line of this program alone too: all five figures, of which a refusal's own line has three
fn print_refusal(rt: &HostRuntime, refusal: Refusal) -> io::Result<()> {
    let Refusal {
        number,
        layer,
        record,
        field,
        place,
    } = refusal;
    println!(rt; "refused {number} layer {layer} record {record} field {field} place {place}")
}

fn print_reading<C: ReadingCode>(
    rt: &HostRuntime,
    message: &[u8],
    code: &C,
    room: Room,
) -> io::Result<()> {
    let contents = match read_message(message, code, room) {
        Ok(contents) => contents,
        Err(fault) => return print_refusal(rt, Refusal::from(fault)),
    };
    print_contents(rt, &contents)?;
    let parts = Parts::read(rt.alloc(), message, code, &contents)?;
    let parts = parts.as_ref();
    if !parts.is_some_and(|parts| parts.agree(message, &contents)) {
        println!(rt; "pass two disagrees")?;
    }
    if !writes_back(rt.alloc(), message, &contents, parts)? {
        println!(rt; "written otherwise")?;
    }
    Ok(())
}

/// What reading the case's message answers, and a line more where reading it part by part does not agree, and where it
/// is written otherwise from its parts.
pub(crate) fn print_answer(rt: &HostRuntime, case: &Case) -> io::Result<()> {
    let message = case.message.as_slice();
    // one arm for each code: its type is chosen when the program is built
    match case.code {
        Code::Utf8 => print_reading(rt, message, &Utf8, case.room),
        Code::Latin1 => print_reading(rt, message, &Latin1, case.room),
    }
}
