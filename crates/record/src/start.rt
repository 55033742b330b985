ghost use Rattle.std.specs.Prelude.{◌≡◌, ◌+◌, ◌≤◌, length, Ok, IfOk, OnOk};
ghost use Rattle.refusal.specs.Chain.{then};
ghost use Rattle.octets.specs.Bytes.{part};
ghost use Rattle.record.specs.Start.{body_length, lawful_id, lawful_length, lawful_version, whole};

use lists::lies_within;
use octets::{all_within, read_number};
use refusal::{ItemCause, ItemFault, RecordCause, RecordFault, Site, demand};

/// The three kinds of record, by their ids.
#[derive(Clone, Copy)]
pub enum RecordKind {
    Head,
    Layout,
    Carried,
}

// a match in each, no table of functions: the three kinds are fixed
impl RecordKind {
    fn accepts_id(self, id: &[u8; 6]) -> bool
        ensures { result ≡ lawful_id self id.now }
    {
        match self {
            RecordKind::Head => id == b"U_HEAD",
            RecordKind::Layout => id == b"U_TLAY",
            RecordKind::Carried => { all_within(id, 32, 126) && id != b"U_HEAD" && id != b"U_TLAY" }
        }
    }

    fn accepts_version(self, version: &[u8; 2]) -> bool
        ensures { result ≡ lawful_version self version.now }
    {
        match self {
            RecordKind::Head | RecordKind::Layout => version == b"01",
            RecordKind::Carried => all_within(version, b'0', b'9'),
        }
    }

    fn accepts_length(self, count: usize) -> bool
        ensures { result ≡ lawful_length self count }
    {
        match self {
            RecordKind::Head => count == 41,
            RecordKind::Layout | RecordKind::Carried => true,
        }
    }
}

/// The given width of bytes is left at a site.
fn bytes_left(message: &[u8], site: Site, width: usize) -> Result<(), RecordFault>
    ensures { result ≡ whole message.now site width }
{
    let left = lies_within(site.place, width, message.len());
    demand(left, RecordFault::Own(RecordCause::TooFewBytes, site))
}

/// The item at a site, as many bytes as the array has places, or refusal 1 where fewer are left.
fn item_at<const WIDTH: usize>(message: &[u8], site: Site) -> Result<[u8; WIDTH], RecordFault>
    ensures value { result ≡ then (whole message.now site WIDTH) (λ _. Ok (part message.now site.place WIDTH)) }
    ensures room { OnOk result (site.place + WIDTH ≤ length message.now) }
{
    bytes_left(message, site, WIDTH)?;
    let item = &message[site.place..site.place + WIDTH];
    Ok(*item.as_array().unwrap())
}

/// The length of the body of a record that begins at a place, where its first twelve bytes are
/// lawful and its body is whole.
pub fn read_start(
    message: &[u8],
    kind: RecordKind,
    number: usize,
    place: usize,
) -> Result<usize, RecordFault>
    ensures value { result ≡ body_length kind message.now number place }
    ensures inside { IfOk result (λ n. place + 12 + n ≤ length message.now) }
{
    let site = Site::in_record(number, place);
    let id = item_at::<6>(message, site)?;
    demand(
        kind.accepts_id(&id),
        RecordFault::Own(RecordCause::WrongId, site),
    )?;
    let site = Site::in_record(number, place + 6);
    let version = item_at::<2>(message, site)?;
    demand(
        kind.accepts_version(&version),
        RecordFault::Own(RecordCause::WrongVersion, site),
    )?;
    let site = Site::in_record(number, place + 8);
    let size = item_at::<4>(message, site)?;
    let no_digit = ItemFault {
        cause: ItemCause::NoDigit,
        site,
    };
    let count = read_number(&size, no_digit)? as usize;
    demand(
        kind.accepts_length(count),
        RecordFault::Own(RecordCause::WrongLength, site),
    )?;
    bytes_left(message, Site::in_record(number, place + 12), count)?;
    Ok(count)
}
