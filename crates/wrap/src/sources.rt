ghost use Rattle.std.specs.Prelude.{◌≡◌, ℕ, ◌-◌, ◌<◌, ◌≤◌, List, None, length as len, take, drop, IfSome};
ghost use Rattle.text_code.specs.Reading.{Front};
ghost use Rattle.wrap.specs.Sources.{ReadAs, Within, encoded_end, EncodedStands, numbers_end, NumbersStand};

use text_code::{Decoded, ReadingCode};

/// Characters that are read one after another, each at a place that the one before it tells.
// By place, and no iterator: a word is read twice, and an iterator to copy would need `stands` and `end` all the same.
pub trait Characters {
    // From a place to the end stand exactly these characters.
    ghost stands: { Self → ℕ → List ℕ → Type 0 };

    ghost end: { Self → ℕ };

    /// The character at a place and how many places it takes, or nothing at the end.
    fn read_at(&self, place: usize) -> Option<Decoded>
        ensures character { (cs : List ℕ) → stands self.now place cs → ReadAs (stands self.now) place cs result }
        ensures within { IfSome result (Within (end self.now) place) };
}

/// A text of bytes in a code. A place is the index of a byte.
#[derive(Drop)]
pub struct Encoded<'c, 'b, C> {
    pub code: &'c C,
    pub bytes: &'b [u8],
}

/// A list of character numbers. A place is an index.
#[derive(Drop)]
pub struct Numbers<'a> {
    pub characters: &'a [u32],
}

/// What the code reads at a place of the bytes, or nothing behind their end.
fn decode_at<C: ReadingCode>(code: &C, bytes: &[u8], place: usize) -> Option<Decoded>
    ensures front { place ≤ len bytes.now → Front (C.ReadingCode.spells code.now) (take (len bytes.now - place) (drop place bytes.now)) result }
    ensures behind { len bytes.now < place → result ≡ None }
{
    code.read(bytes.get(place..)?)
}

impl<'c, 'b, C: ReadingCode> Characters for Encoded<'c, 'b, C> {
    ghost stands = { λ s. EncodedStands (C.ReadingCode.spells s.code.now) s.bytes.now };

    ghost end = { λ s. encoded_end s.bytes.now };

    fn read_at(&self, place: usize) -> Option<Decoded> {
        decode_at(self.code, self.bytes, place)
    }
}

impl<'a> Characters for Numbers<'a> {
    ghost stands = { λ s. NumbersStand s.characters.now };

    ghost end = { λ s. numbers_end s.characters.now };

    fn read_at(&self, place: usize) -> Option<Decoded> {
        let character = *self.characters.get(place)?;
        Some(Decoded {
            character,
            length: 1,
        })
    }
}
