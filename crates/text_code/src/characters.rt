ghost use Rattle.std.specs.Prelude.{◌≡◌};
ghost use Rattle.text_code.specs.Characters.{is_allowed, permits};

/// Where the first character is that is malformed, has no spelling or is not permitted: the index of a byte in a text,
/// of a number in a list.
#[derive(Clone, Copy, PartialEq, Eq, Debug)]
pub struct CharacterFault {
    pub place: usize,
}

/// Which characters a text may hold.
// The code and what is permitted stay two parameters: one code serves both kinds of text.
// An enum and no closure: calling a closure takes a `requires`, and no public function has one.
#[derive(Clone, Copy, PartialEq, Eq, Debug)]
pub enum Permitted {
    /// Every character that the code spells.
    Any,
    /// Those that are allowed in a ticket text.
    TicketText,
}

/// Whether a ticket text may hold the character: all but 0 to 9, 11 to 31 and 127 to 159.
pub fn is_allowed(character: u32) -> bool
    ensures answer { result ≡ is_allowed character }
{
    !matches!(character, 0..=9 | 11..=31 | 127..=159)
}

impl Permitted {
    /// Whether the text may hold the character.
    pub fn permits(self, character: u32) -> bool
        ensures answer { result ≡ permits self character }
    {
        match self {
            Permitted::Any => true,
            Permitted::TicketText => is_allowed(character),
        }
    }
}
