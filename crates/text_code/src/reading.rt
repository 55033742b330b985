ghost use Rattle.std.specs.Prelude.{◌≡◌};
ghost use Rattle.text_code.specs.Reading.{Checked, OnlyAnswer, permitted_front};
ghost use Rattle.text_code.specs.Spellings.{UniqueDecoding};

use super::characters::{CharacterFault, Permitted};
use super::codes::{Decoded, ReadingCode};

/// What was read at the front, if it is permitted.
fn permitted_front(permitted: Permitted, read: Option<Decoded>) -> Option<Decoded>
    ensures { result ≡ permitted_front permitted read }
{
    read.filter(|decoded| permitted.permits(decoded.character))
}

/// The number of characters of a text, or the place of the first byte at which no permitted character is spelled.
pub fn count_characters<C: ReadingCode>(
    code: &C,
    permitted: Permitted,
    bytes: &[u8],
) -> Result<usize, CharacterFault>
    ensures answer { Checked (C.ReadingCode.spells code.now) permitted bytes.now result }
    ensures only { OnlyAnswer (C.ReadingCode.spells code.now) permitted bytes.now result }
    ensures unique { UniqueDecoding (C.ReadingCode.spells code.now) }
{
    let mut rest = bytes;
    let mut characters = 0;
    while let Some(decoded) = permitted_front(permitted, code.read(rest)) {
        rest = &rest[decoded.length..];
        characters += 1;
    }
    if rest.is_empty() {
        Ok(characters)
    } else {
        Err(CharacterFault {
            place: bytes.len() - rest.len(),
        })
    }
}
