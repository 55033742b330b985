ghost use Rattle.std.specs.Prelude.{◌≡◌, ℕ};
ghost use Rattle.text_code_tests.specs.OneMore.{sign_read, with_sign};
ghost use Rattle.std.proofs.Common.{rules};

use text_code::{Decoded, ReadingCode, Spelling, WritingCode};

/// What tells a sign.
pub trait Sign {
    ghost sign: { Self → ℕ };

    fn sign(&self) -> u32
        ensures { result ≡ sign self.now };
}

/// A sign that is lent.
#[derive(Drop)]
pub struct Lent<'a> {
    pub character: &'a u32,
}

impl Sign for Lent<'_> {
    ghost sign = { λ s. s.character.now };

    fn sign(&self) -> u32 {
        *self.character
    }
}

/// A code with state: characters 0 to 127 by their own byte, and a sign by byte 128.
#[derive(Drop)]
pub struct WithSign<S> {
    pub sign: S,
}

fn read_sign(sign: u32) -> Option<Decoded>
    ensures { result ≡ sign_read sign }
{
    (128..=1_114_111).contains(&sign).then_some(Decoded {
        character: sign,
        length: 1,
    })
}

impl<S: Sign> ReadingCode for WithSign<S> {
    ghost spells = { λ s. with_sign (S.Sign.sign s.sign) };

    ghost short = { Prim.search rules };

    ghost octets = { Prim.search rules };

    ghost bounded = { Prim.search rules };

    ghost apart = { Prim.search rules };

    ghost plain = { Prim.search rules };

    fn read(&self, bytes: &[u8]) -> Option<Decoded> {
        let [byte, ..] = bytes else {
            return None;
        };
        match *byte {
            0..=127 => Some(Decoded {
                character: *byte as u32,
                length: 1,
            }),
            128 => read_sign(self.sign.sign()),
            _ => None,
        }
    }
}

impl<S: Sign> WritingCode for WithSign<S> {
    fn spell(&self, character: u32) -> Option<Spelling> {
        if character <= 127 {
            Spelling::new(&[character as u8])
        } else if character <= 1_114_111 && character == self.sign.sign() {
            Spelling::new(&[128])
        } else {
            None
        }
    }
}
