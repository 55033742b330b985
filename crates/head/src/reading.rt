ghost use Rattle.std.specs.Prelude.{◌≡◌};
ghost use Rattle.head.specs.Reading.{edition_at, fault_at, flags_at, items_at};

use super::items::{Edition, HeadItems};
use super::lawful::{is_lawful_edition, is_lawful_key, is_lawful_language, is_lawful_second};
use calendar::Date;
use octets::read_number;
use refusal::{ItemCause, ItemFault, Site, demand};

pub(crate) fn head_fault(place: usize) -> ItemFault
    ensures { result ≡ fault_at place }
{
    ItemFault {
        cause: ItemCause::HeadItem,
        site: Site::in_record(0, place),
    }
}

fn read_edition(bytes: &[u8; 53]) -> Result<Edition, ItemFault>
    ensures { result ≡ edition_at bytes.now }
{
    let fault = head_fault(36);
    // two digits fit u8, and four fit u16
    let day = read_number(&bytes[36..38], fault)? as u8;
    let month = read_number(&bytes[38..40], fault)? as u8;
    let year = read_number(&bytes[40..44], fault)? as u16;
    let hour = read_number(&bytes[44..46], fault)? as u8;
    let minute = read_number(&bytes[46..48], fault)? as u8;
    let date = Date { day, month, year };
    let edition = Edition { date, hour, minute };
    demand(is_lawful_edition(&edition), fault)?;
    Ok(edition)
}

fn read_flags(bytes: &[u8; 53]) -> Result<u8, ItemFault>
    ensures { result ≡ flags_at bytes.now }
{
    let fault = head_fault(48);
    let flags = read_number(&bytes[48..49], fault)? as u8;
    demand(flags <= 7, fault)?;
    Ok(flags)
}

pub(crate) fn read_items(bytes: &[u8; 53]) -> Result<HeadItems, ItemFault>
    ensures { result ≡ items_at bytes.now }
{
    let carrier = read_number(&bytes[12..16], head_fault(12))? as u16;
    let key = *bytes[16..36].as_array().unwrap();
    demand(is_lawful_key(&key), head_fault(16))?;
    let edition = read_edition(bytes)?;
    let flags = read_flags(bytes)?;
    let language = *bytes[49..51].as_array().unwrap();
    demand(is_lawful_language(&language), head_fault(49))?;
    let second_language = *bytes[51..53].as_array().unwrap();
    demand(is_lawful_second(&second_language), head_fault(51))?;
    Ok(HeadItems {
        carrier,
        key,
        edition,
        flags,
        language,
        second_language,
    })
}
