ghost use Rattle.std.specs.Prelude.{◌≡◌};
ghost use Rattle.head.specs.Heads.{lawful, lawful_edition, lawful_key, lawful_language, lawful_second};

use super::items::{Edition, HeadItems};
use calendar::Time;
use octets::all_within;

pub(crate) fn is_lawful_key(key: &[u8; 20]) -> bool
    ensures { result ≡ lawful_key key.now }
{
    all_within(key, 32, 126)
}

pub(crate) fn is_lawful_edition(edition: &Edition) -> bool
    ensures { result ≡ lawful_edition edition.now }
{
    let time = Time {
        hour: edition.hour,
        minute: edition.minute,
        second: 0,
    };
    edition.date.is_real() && time.is_real()
}

pub(crate) fn is_lawful_language(language: &[u8; 2]) -> bool
    ensures { result ≡ lawful_language language.now }
{
    language.iter().all(|byte| byte.is_ascii_alphabetic())
}

pub(crate) fn is_lawful_second(language: &[u8; 2]) -> bool
    ensures { result ≡ lawful_second language.now }
{
    is_lawful_language(language) || language == b"  "
}

impl HeadItems {
    pub(crate) fn are_lawful(&self) -> bool
        ensures { result ≡ lawful self.now }
    {
        self.carrier <= 9999
            && is_lawful_key(&self.key)
            && is_lawful_edition(&self.edition)
            && self.flags <= 7
            && is_lawful_language(&self.language)
            && is_lawful_second(&self.second_language)
    }
}
