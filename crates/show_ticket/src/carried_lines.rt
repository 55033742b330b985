use super::failure::Failure;
use super::one_line::one_line;
use message::{CarriedItems, Contents, EntryStart, read_carried};
use std::io;

// a line of this program alone, so no Display of the library's type
fn print_carried(rt: &HostRuntime, carried: &CarriedItems) -> io::Result<()> {
    let id = one_line(rt.alloc(), &carried.id)?;
    let version = one_line(rt.alloc(), &carried.version)?;
    let length = carried.body.bytes.len();
    println!(rt; "carried {id} version {version} length {length}")
}

/// The carried records of a message that holds these contents, one to a line.
pub(crate) fn print_carried_records(
    rt: &HostRuntime,
    message: &[u8],
    contents: &Contents,
) -> Result<(), Failure> {
    let mut start = EntryStart::of_carried(contents.layout_end, contents.needs.bodies);
    for _ in 0..contents.needs.carried {
        let carried = read_carried(message, start)?;
        print_carried(rt, &carried)?;
        start = start.behind(carried.body);
    }
    Ok(())
}
