ghost use Rattle.std.specs.Prelude.{◌≡◌, ℕ, List};
ghost use Rattle.std.specs.Str.{bytes_eq};
ghost use Rattle.validity.specs.Listing.{netz};
ghost use Rattle.validity.specs.ZoneLaws.{KindLaw, SetLaw, ZonesIn};

use super::answer::Zones;
use super::groups::listed_words;
use super::marks::{all_zones, zones_of_words};
use text_code::ReadingCode;

/// Whether the bytes are `Netz`, which has the same bytes in every code.
fn is_netz(bytes: &[u8]) -> bool
    ensures { result ≡ bytes_eq bytes.now netz }
{
    bytes == b"Netz".as_slice()
}

/// The zones that a text tells. Bytes that spell no text tell none.
pub fn zones_of_text<C: ReadingCode>(code: &C, bytes: &[u8]) -> Zones
    ensures answer { ZonesIn (C.ReadingCode.spells code.now) bytes.now result }
    ensures kinds { (cs : List ℕ) → KindLaw cs }
    ensures sets { SetLaw }
{
    if is_netz(bytes) {
        return all_zones();
    }
    zones_of_words(listed_words(code, bytes))
}
