ghost use Rattle.text_code.specs.Codes.{latin1};
ghost use Rattle.std.proofs.Common.{rules};

use super::codes::{Decoded, ReadingCode, WritingCode};
use super::spelling::Spelling;

/// ISO 8859-1: characters 0 to 255, one byte each.
#[derive(Clone, Copy, PartialEq, Eq, Debug)]
pub struct Latin1;

impl ReadingCode for Latin1 {
    ghost spells = { λ _. latin1 };

    ghost short = { Prim.search rules };

    ghost octets = { Prim.search rules };

    ghost bounded = { Prim.search rules };

    ghost apart = { Prim.search rules };

    ghost plain = { Prim.search rules };

    fn read(&self, bytes: &[u8]) -> Option<Decoded> {
        match bytes {
            [byte, ..] => Some(Decoded {
                character: *byte as u32,
                length: 1,
            }),
            [] => None,
        }
    }
}

impl WritingCode for Latin1 {
    fn spell(&self, character: u32) -> Option<Spelling> {
        match character {
            0..=255 => Spelling::new(&[character as u8]),
            _ => None,
        }
    }
}
