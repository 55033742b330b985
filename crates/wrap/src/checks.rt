ghost use Rattle.std.specs.Prelude.{◌≡◌, ℕ, List, if◌then◌else◌, Ok, Err};
ghost use Rattle.wrap.specs.Checks.{CharactersChecked, OnlyCheck, TextChecked};
ghost use Rattle.wrap.specs.Flow.{fits};
ghost use Rattle.wrap.specs.declared.checks.TextFault.TheVariants.{Character, TooLarge};

use super::fitting::fits_in;
use super::sources::{Characters, Encoded, Numbers};
use text_code::{
    CharacterFault, Permitted, ReadingCode, WritingCode, count_characters, spelled_length,
};

/// Why a text cannot stand in its rectangle.
#[derive(Clone, Copy, PartialEq, Eq, Debug)]
pub enum TextFault {
    /// The place of the first character that is malformed or not allowed.
    Character(usize),
    /// The text does not fit.
    TooLarge,
}

impl From<CharacterFault> for TextFault {
    ghost from_gives = { λ fault r. r ≡ Character fault.place };

    fn from(fault: CharacterFault) -> TextFault {
        TextFault::Character(fault.place)
    }
}

/// Nothing where the text of a source fits, else that it is too large.
fn check_fit<S: Characters>(source: &S, height: usize, width: usize) -> Result<(), TextFault>
    ensures answer { (cs : List ℕ) → S.Characters.stands source.now 0 cs → result ≡ (if fits height width cs then Ok tt else Err TooLarge) }
{
    if fits_in(source, height, width) {
        Ok(())
    } else {
        Err(TextFault::TooLarge)
    }
}

/// Checks a text of bytes: first its characters, then its fit. A place is the index of a byte.
pub fn check_text<C: ReadingCode>(
    code: &C,
    bytes: &[u8],
    height: usize,
    width: usize,
) -> Result<(), TextFault>
    ensures answer { TextChecked (C.ReadingCode.spells code.now) height width bytes.now result }
    ensures only { OnlyCheck (TextChecked (C.ReadingCode.spells code.now) height width bytes.now) result }
{
    count_characters(code, Permitted::TicketText, bytes)?;
    check_fit(&Encoded { code, bytes }, height, width)
}

/// Checks a list of character numbers: first the characters, then the fit. A place is an index.
pub fn check_characters<C: WritingCode>(
    code: &C,
    characters: &[u32],
    height: usize,
    width: usize,
) -> Result<(), TextFault>
    ensures answer { CharactersChecked (C.ReadingCode.spells code.now) height width characters.now result }
    ensures only { OnlyCheck (CharactersChecked (C.ReadingCode.spells code.now) height width characters.now) result }
{
    spelled_length(code, Permitted::TicketText, characters)?;
    check_fit(&Numbers { characters }, height, width)
}
