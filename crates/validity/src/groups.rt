ghost use Rattle.std.specs.Prelude.{◌≡◌};
ghost use Rattle.validity.specs.Listing.{class_of, ListedIn};

use super::marks::mark;
use text_code::ReadingCode;

/// What a character is in a list of zones.
#[derive(Clone, Copy)]
pub(crate) enum Class {
    Digit(u32),
    Blank,
    Other,
}

impl From<u32> for Class {
    ghost from_gives = { λ character class. class ≡ class_of character };

    fn from(character: u32) -> Class {
        match character {
            48..=57 => Class::Digit(character - 48),
            32 => Class::Blank,
            _ => Class::Other,
        }
    }
}

/// The words of the zones that a text lists, if it is groups of three digits with one blank between neighbours.
pub(crate) fn listed_words<C: ReadingCode>(code: &C, bytes: &[u8]) -> Option<[u64; 16]>
    ensures { ListedIn (C.ReadingCode.spells code.now) bytes.now result }
{
    let mut words = [0; 16];
    let (mut digits, mut value, mut gap) = (0u8, 0, false);
    let mut rest = bytes;
    while !rest.is_empty() {
        let decoded = code.read(rest)?;
        // the state and the class in one match, so that each turn of the state is one arm
        match (digits, gap, Class::from(decoded.character)) {
            (2, false, Class::Digit(digit)) => {
                mark(&mut words, value * 10 + digit);
                gap = true;
            }
            (_, false, Class::Digit(digit)) => {
                digits += 1;
                value = value * 10 + digit;
            }
            (_, true, Class::Blank) => {
                digits = 0;
                value = 0;
                gap = false;
            }
            _ => return None,
        }
        rest = &rest[decoded.length..];
    }
    if gap { Some(words) } else { None }
}
