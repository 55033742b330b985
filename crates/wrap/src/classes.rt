ghost use Rattle.std.specs.Prelude.{◌≡◌};
ghost use Rattle.wrap.specs.Classes.{class_of};

/// What wrapping does with a character.
#[derive(Clone, Copy, PartialEq, Eq, Debug)]
pub enum CharacterClass {
    /// Parts words.
    Blank,
    /// Parts words and ends the row.
    LineFeed,
    /// Stands in a word.
    Ink,
}

// No `From`: the class is asked of a char with its two literals, and of a number by way of it.
fn class_of_char(c: char) -> CharacterClass
    ensures { result ≡ class_of c }
{
    match c {
        ' ' => CharacterClass::Blank,
        '\n' => CharacterClass::LineFeed,
        _ => CharacterClass::Ink,
    }
}

/// The class of a character number.
pub fn class_of(character: u32) -> CharacterClass
    ensures class { result ≡ class_of character }
{
    if character < 128 {
        class_of_char((character as u8) as char)
    } else {
        CharacterClass::Ink
    }
}
