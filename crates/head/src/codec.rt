ghost use Rattle.std.specs.Prelude.{◌≡◌, Ok};
ghost use Rattle.refusal.specs.Chain.{demand, then};
ghost use Rattle.head.specs.Heads.{edition_bytes, encode, lawful};
ghost use Rattle.head.specs.Reading.{fault_at, head_at};
ghost use Rattle.head.specs.Writing.{over, written};
ghost use Rattle.head.specs.Told.{Alone, Exactly, ReadsBack, told};

use super::head::Head;
use super::items::{Edition, HeadItems};
use super::reading::{head_fault, read_items};
use lists::lay;
use octets::number_digits;
use record::{RecordKind, read_start};
use refusal::{ItemFault, RecordFault, SheetCause, SheetFault, Site};

fn edition_record(edition: &Edition) -> [u8; 12]
    ensures { result ≡ edition_bytes edition.now }
{
    let date = edition.date;
    let mut bytes = [0; 12];
    lay(&mut bytes, 0, &number_digits::<2>(date.day as u32));
    lay(&mut bytes, 2, &number_digits::<2>(date.month as u32));
    lay(&mut bytes, 4, &number_digits::<4>(date.year as u32));
    lay(&mut bytes, 8, &number_digits::<2>(edition.hour as u32));
    lay(&mut bytes, 10, &number_digits::<2>(edition.minute as u32));
    bytes
}

// a hint: a refused call makes no room for these bytes
#[inline(never)]
fn head_record(items: &HeadItems) -> [u8; 53]
    ensures { result ≡ encode items.now }
{
    let mut bytes = [0; 53];
    lay(&mut bytes, 0, b"U_HEAD010041");
    lay(&mut bytes, 12, &number_digits::<4>(items.carrier as u32));
    lay(&mut bytes, 16, &items.key);
    lay(&mut bytes, 36, &edition_record(&items.edition));
    lay(&mut bytes, 48, &number_digits::<1>(items.flags as u32));
    lay(&mut bytes, 49, &items.language);
    lay(&mut bytes, 51, &items.second_language);
    bytes
}

fn write_items(items: &HeadItems, buffer: &mut [u8]) -> Result<usize, SheetFault>
    ensures value { result ≡ written buffer.old }
    ensures after { buffer.new ≡ over items.now buffer.old }
{
    if buffer.len() < 53 {
        let site = Site::in_record(0, 0);
        return Err(SheetFault::Own(SheetCause::BufferTooShort, site));
    }
    lay(buffer, 0, &head_record(items));
    Ok(53)
}

fn items_at_front(message: &[u8]) -> Result<HeadItems, RecordFault>
    ensures { result ≡ head_at message.now }
{
    read_start(message, RecordKind::Head, 0, 0)?;
    let items = read_items(message.first_chunk().unwrap())?;
    Ok(items)
}

/// A head of these items, or refusal 7 where one of them is unlawful.
impl TryFrom<HeadItems> for Head {
    type Error = ItemFault;

    ghost try_from_gives = { λ x r. told r ≡ then (demand (lawful x) (fault_at 0)) (λ _. Ok x) };

    fn try_from(items: HeadItems) -> Result<Head, ItemFault> {
        if items.are_lawful() {
            Ok(Head::of(items))
        } else {
            Err(head_fault(0))
        }
    }
}

impl Head {
    /// The head at the front of a message.
    pub fn read(message: &[u8]) -> Result<Head, RecordFault>
        ensures value { told result ≡ head_at message.now }
        ensures exactly { Exactly message.now result }
    {
        let items = items_at_front(message)?;
        Ok(Head::of(items))
    }

    /// Writes the record's 53 bytes to the front of a buffer and tells their number, or refusal 16
    /// where the buffer is shorter.
    pub fn write(&self, buffer: &mut [u8]) -> Result<usize, SheetFault>
        ensures value { result ≡ written buffer.old }
        ensures after { buffer.new ≡ over self.now.items buffer.old }
        ensures reads_back { ReadsBack self.now.items }
        ensures alone { Alone self.now.items }
    {
        write_items(&self.items(), buffer)
    }
}
