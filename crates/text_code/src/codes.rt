ghost use Rattle.std.specs.Prelude.{◌≡◌, ℕ, List, Option};
ghost use Rattle.std.specs.Option.{option_map};
ghost use Rattle.text_code.specs.Reading.{Front};
ghost use Rattle.text_code.specs.Spellings.{OneToFour, OfBytes, OfCharacters, PrefixFree, OwnBytes};
ghost use Rattle.text_code.specs.Writing.{spelling_bytes};

use super::spelling::Spelling;

/// A character and the number of bytes that spell it.
#[derive(Clone, Copy, PartialEq, Eq, Debug)]
pub struct Decoded {
    pub character: u32,
    pub length: usize,
}

/// A text code that can be read. It is known by its spellings: the bytes of each character, or none.
pub trait ReadingCode {
    ghost spells: { Self → ℕ → Option (List ℕ) };

    /// The character whose spelling begins the bytes, or none exactly where no spelling does.
    fn read(&self, bytes: &[u8]) -> Option<Decoded>
        ensures front { Front (spells self.now) bytes.now result };

    ghost short: { (s : Self) → OneToFour (spells s) };

    ghost octets: { (s : Self) → OfBytes (spells s) };

    ghost bounded: { (s : Self) → OfCharacters (spells s) };

    ghost apart: { (s : Self) → PrefixFree (spells s) };

    ghost plain: { (s : Self) → OwnBytes (spells s) };
}

/// A reading code that can also spell.
pub trait WritingCode: ReadingCode {
    /// The spelling of the character, or none exactly where it has none.
    fn spell(&self, character: u32) -> Option<Spelling>
        ensures spelling { option_map spelling_bytes result ≡ Self.ReadingCode.spells self.now character };
}
