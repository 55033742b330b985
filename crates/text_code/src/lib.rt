//! Text codes: how characters are spelled in bytes, for any code, with UTF-8 and ISO 8859-1.
#![tactic(auto)]

mod characters;
mod codes;
mod latin1;
mod reading;
mod spelling;
mod utf8;
mod writing;

pub use characters::{CharacterFault, Permitted, is_allowed};
pub use codes::{Decoded, ReadingCode, WritingCode};
pub use latin1::Latin1;
pub use reading::count_characters;
pub use spelling::Spelling;
pub use utf8::Utf8;
pub use writing::{lay_characters, spelled_length};
