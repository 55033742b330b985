ghost use Rattle.std.specs.Prelude.{◌≡◌, ◌+◌, ◌≤◌, ◌++◌, length as len, take, drop};
ghost use Rattle.text_code.specs.Writing.{Laid, Measured, OnlyMeasure, permitted_length};

use super::characters::{CharacterFault, Permitted};
use super::codes::WritingCode;
use lists::lies_within;

/// The number of bytes that spell a character, or none where it has no spelling or is not permitted.
fn permitted_length<C: WritingCode>(code: &C, permitted: Permitted, character: u32) -> Option<usize>
    ensures value { result ≡ permitted_length (C.ReadingCode.spells code.now) permitted character }
{
    let spelling = code.spell(character)?;
    if permitted.permits(character) {
        Some(spelling.as_bytes().len())
    } else {
        None
    }
}

/// The number of bytes that spell the characters, or the index of the first that has no spelling or is not permitted.
pub fn spelled_length<C: WritingCode>(
    code: &C,
    permitted: Permitted,
    characters: &[u32],
) -> Result<usize, CharacterFault>
    ensures answer { Measured (C.ReadingCode.spells code.now) permitted characters.now result }
    ensures only { OnlyMeasure (C.ReadingCode.spells code.now) permitted characters.now result }
{
    let mut length = 0;
    for (index, character) in characters.iter().enumerate() {
        let fault = CharacterFault { place: index };
        length += permitted_length(code, permitted, *character).ok_or(fault)?;
    }
    Ok(length)
}

// not `lists::lay`, which looks how much there is room for: at each character that takes as long again
/// Lays bytes, for which there is room, over the buffer from a place on and tells where they end.
fn lay_within(buffer: &mut [u8], at: usize, bytes: &[u8]) -> usize
    requires { at + len bytes.now ≤ len buffer.old }
    ensures end { result ≡ at + len bytes.now }
    ensures holds { buffer.new ≡ take at buffer.old ++ (bytes.now ++ drop (len bytes.now) (drop at buffer.old)) }
{
    let end = at + bytes.len();
    buffer[at..end].copy_from_slice(bytes);
    end
}

/// Lays the spelled characters over the buffer from a place on and tells where they end.
/// Nothing is changed where one has no spelling or they do not fit.
pub fn lay_characters<C: WritingCode>(
    code: &C,
    characters: &[u32],
    buffer: &mut [u8],
    place: usize,
) -> Option<usize>
    ensures laid { Laid (C.ReadingCode.spells code.now) characters.now buffer.old place buffer.new result }
{
    let length = spelled_length(code, Permitted::Any, characters).ok()?;
    if !lies_within(place, length, buffer.len()) {
        return None;
    }
    let mut at = place;
    for character in characters {
        let spelling = code.spell(*character).unwrap();
        at = lay_within(buffer, at, spelling.as_bytes());
    }
    Some(at)
}
