ghost use Rattle.std.specs.Prelude.{◌≡◌, ◌+◌, ◌%◌, ◌<◌, ◌≤◌, ◌&&◌, IfSome, Some, None, false, if◌then◌else◌, nat_le};
ghost use Rattle.std.specs.Range.{range_inclusive_start, range_inclusive_end, range_inclusive_exhausted};
ghost use Rattle.text_code.specs.Codes.{continuation, four_bytes, three_bytes, two_bytes, utf8};
ghost use Rattle.text_code.specs.Utf8Forms.{long_at, form_at, least_second, greatest_second};
ghost use borrow.Author.Rules.{rules};

use super::codes::{Decoded, ReadingCode, WritingCode};
use super::spelling::Spelling;
use std::ops::RangeInclusive;

/// UTF-8 as in RFC 3629: the shortest form, no surrogates, nothing above 10FFFF.
#[derive(Clone, Copy, PartialEq, Eq, Debug)]
pub struct Utf8;

/// The second bytes that may stand behind a first: a lower one would begin a longer form than needed, a higher one a
/// surrogate or a number above 10FFFF.
fn second_range(first: u8) -> RangeInclusive<u8>
    ensures least { range_inclusive_start result ≡ least_second first }
    ensures greatest { range_inclusive_end result ≡ greatest_second first }
    ensures whole { range_inclusive_exhausted result ≡ false }
{
    match first {
        0xE0 => 0xA0..=0xBF,
        0xED => 0x80..=0x9F,
        0xF0 => 0x90..=0xBF,
        0xF4 => 0x80..=0x8F,
        _ => 0x80..=0xBF,
    }
}

/// The last six bits of a byte that lies in a range.
fn last_bits(byte: u8, range: RangeInclusive<u8>) -> Option<u32>
    ensures value { range_inclusive_exhausted range ≡ false → result ≡ (if nat_le (range_inclusive_start range) byte && nat_le byte (range_inclusive_end range) then Some (byte % 64) else None) }
    ensures bound { IfSome result (λ bits. bits < 64) }
{
    range.contains(&byte).then_some((byte % 64) as u32)
}

/// The character of a form of N bytes: the bits of the first byte above its lead, then six of each that follows.
fn read_long<const N: usize>(bytes: &[u8], first: u8, lead: u8) -> Option<Decoded>
    requires { (2 ≤ N) × (N ≤ 4) × (lead ≤ first) × (first < lead + 32) }
    ensures { result ≡ long_at bytes.now first lead N }
{
    let second = last_bits(*bytes.get(1)?, second_range(first))?;
    let mut character = (first - lead) as u32 * 64 + second;
    for byte in bytes.get(2..N)? {
        character = character * 64 + last_bits(*byte, 0x80..=0xBF)?;
    }
    Some(Decoded {
        character,
        length: N,
    })
}

/// The character of the form that a first byte begins.
#[tactic(auto, unfolding(crate::specs::Utf8Forms::form_at))]
fn read_form(bytes: &[u8], first: u8) -> Option<Decoded>
    ensures { result ≡ form_at bytes.now first }
{
    match first {
        0x00..=0x7F => Some(Decoded {
            character: first as u32,
            length: 1,
        }),
        0x80..=0xC1 => None,
        0xC2..=0xDF => read_long::<2>(bytes, first, 0xC0),
        0xE0..=0xEF => read_long::<3>(bytes, first, 0xE0),
        0xF0..=0xF4 => read_long::<4>(bytes, first, 0xF0),
        0xF5..=0xFF => None,
    }
}

impl ReadingCode for Utf8 {
    ghost spells = { λ _. utf8 };

    ghost short = { unfold utf8 in Prim.search rules };

    ghost octets = { unfold utf8 in Prim.search rules };

    ghost bounded = { unfold utf8 in Prim.search rules };

    ghost apart = { unfold utf8 in Prim.search rules };

    ghost plain = { unfold utf8 in Prim.search rules };

    fn read(&self, bytes: &[u8]) -> Option<Decoded> {
        match bytes {
            [first, ..] => read_form(bytes, *first),
            [] => None,
        }
    }
}

/// A byte that follows the first: 10xxxxxx with the last six bits of a number.
fn continuation_byte(bits: u32) -> u8
    ensures { result ≡ continuation bits }
{
    0x80 + (bits % 64) as u8
}

// Each form stands as RFC 3629 shows it: one loop, or the library's `encode_utf8`, would hide which bits go where.

/// The form of numbers up to 7FF.
fn two_bytes(character: u32) -> [u8; 2]
    requires { character ≤ 0x7FF }
    ensures { result ≡ two_bytes character }
{
    [0xC0 + (character / 64) as u8, continuation_byte(character)]
}

/// The form of numbers up to FFFF.
fn three_bytes(character: u32) -> [u8; 3]
    requires { character ≤ 0xFFFF }
    ensures { result ≡ three_bytes character }
{
    [
        0xE0 + (character / 4096) as u8,
        continuation_byte(character / 64),
        continuation_byte(character),
    ]
}

/// The form of numbers up to 10FFFF.
fn four_bytes(character: u32) -> [u8; 4]
    requires { character ≤ 0x10FFFF }
    ensures { result ≡ four_bytes character }
{
    [
        0xF0 + (character / 262144) as u8,
        continuation_byte(character / 4096),
        continuation_byte(character / 64),
        continuation_byte(character),
    ]
}

impl WritingCode for Utf8 {
    #[tactic(auto, unfolding(crate::specs::Codes::utf8))]
    fn spell(&self, character: u32) -> Option<Spelling> {
        match character {
            0..=0x7F => Spelling::new(&[character as u8]),
            0x80..=0x7FF => Spelling::new(&two_bytes(character)),
            0xD800..=0xDFFF => None,
            0x800..=0xFFFF => Spelling::new(&three_bytes(character)),
            0x10000..=0x10FFFF => Spelling::new(&four_bytes(character)),
            _ => None,
        }
    }
}
