ghost use Rattle.std.specs.Prelude.{◌≡◌, ℕ, ◌<◌, Bool, ◌||◌, Some, ◌==◌};
ghost use Rattle.validity.specs.Zoning.{all_zones, ones_of, plain_zones, words_of, zones_of_words};

use super::answer::{ZoneKind, Zones};

/// The answer to a text that tells no zones.
pub(crate) fn plain_zones() -> Zones
    ensures { result ≡ plain_zones }
{
    Zones {
        kind: ZoneKind::Plain,
        words: [0; 16],
        count: 0,
    }
}

/// The answer to a text that tells all zones.
pub(crate) fn all_zones() -> Zones
    ensures { result ≡ all_zones }
{
    let mut words = [u64::MAX; 16];
    words[15] = (1 << 40) - 1;
    Zones {
        kind: ZoneKind::All,
        words,
        count: 1000,
    }
}

/// The answer to a text that lists the zones of these words.
fn listed_zones(words: [u64; 16]) -> Zones
    ensures { result ≡ zones_of_words (Some words) }
{
    Zones {
        kind: ZoneKind::Listed,
        words,
        count: count_zones(&words),
    }
}

// no From: an impl is for everyone, and would make zones of words that no text lists
/// The answer to the words that a text lists, plain where it lists none.
pub(crate) fn zones_of_words(words: Option<[u64; 16]>) -> Zones
    ensures { result ≡ zones_of_words words }
{
    match words {
        Some(words) => listed_zones(words),
        None => plain_zones(),
    }
}

/// Sets a zone.
pub(crate) fn mark(words: &mut [u64; 16], zone: u32)
    requires { zone < 1000 }
    ensures { (f : ℕ → Bool) → words.old ≡ words_of 16 f → words.new ≡ words_of 16 (λ z. f z || z == zone) }
{
    words[(zone / 64) as usize] |= 1 << (zone % 64);
}

/// The number of bits that are set.
pub(crate) fn count_zones(words: &[u64; 16]) -> u32
    ensures { result ≡ ones_of words.now }
{
    words.iter().map(|word| word.count_ones()).sum()
}
