//! Text codes on examples: published texts, the boundaries of each form, malformed bytes, and every byte of ISO 8859-1.
#![tactic(auto)]

pub mod lent;

#[cfg(test)]
mod tests {
    use crate::lent::{Lent, WithSign};
    use std::process::Abort;
    use std::test::Fail;
    use text_code::{
        CharacterFault, Decoded, Latin1, Permitted, ReadingCode, Utf8, WritingCode,
        count_characters, is_allowed, lay_characters, spelled_length,
    };

    const AZUBI: [u32; 22] = [
        65, 122, 117, 98, 105, 32, 83, 99, 104, 252, 108, 101, 114, 45, 83, 112, 97, 114, 108, 105,
        110, 103,
    ];

    fn decoded(character: u32, length: usize) -> Option<Decoded> {
        Some(Decoded { character, length })
    }

    fn fault(place: usize) -> Result<usize, CharacterFault> {
        Err(CharacterFault { place })
    }

    // The bytes are read and written as these characters.
    fn agree(rt: &impl Abort, bytes: &[u8], characters: &[u32]) -> Result<(), Fail> {
        let mut buffer = [0; 16];
        assert_eq!(rt;
            count_characters(&Utf8, Permitted::Any, bytes),
            Ok(characters.len())
        );
        assert_eq!(rt;
            spelled_length(&Utf8, Permitted::Any, characters),
            Ok(bytes.len())
        );
        assert_eq!(rt;
            lay_characters(&Utf8, characters, &mut buffer, 1),
            Some(1 + bytes.len())
        );
        assert!(rt; 1 + bytes.len() <= buffer.len());
        assert_eq!(rt; &buffer[1..1 + bytes.len()], bytes);
        let mut rest = bytes;
        for character in characters {
            let read = Utf8.read(rest).ok_or("malformed")?;
            assert_eq!(rt; read.character, *character);
            assert!(rt; read.length <= 4);
            assert!(rt; read.length <= rest.len());
            rest = &rest[read.length..];
        }
        Ok(())
    }

    #[test]
    fn published_texts(rt: HostRuntime) -> Result<(), Fail> {
        agree(
            &rt,
            &[0x41, 0xE2, 0x89, 0xA2, 0xCE, 0x91, 0x2E],
            &[0x41, 0x2262, 0x391, 0x2E],
        )?;
        agree(
            &rt,
            &[0xED, 0x95, 0x9C, 0xEA, 0xB5, 0xAD, 0xEC, 0x96, 0xB4],
            &[0xD55C, 0xAD6D, 0xC5B4],
        )?;
        agree(
            &rt,
            &[0xE6, 0x97, 0xA5, 0xE6, 0x9C, 0xAC, 0xE8, 0xAA, 0x9E],
            &[0x65E5, 0x672C, 0x8A9E],
        )?;
        agree(
            &rt,
            &[0xEF, 0xBB, 0xBF, 0xF0, 0xA3, 0x8E, 0xB4],
            &[0xFEFF, 0x233B4],
        )
    }

    // The bytes of each character are its spelling, and no fewer of them are.
    // The zeros are read too, as bytes that stand behind it.
    #[test]
    fn boundaries(rt: HostRuntime) -> Result<(), Fail> {
        let cases: [(u32, [u8; 4], usize); 13] = [
            (0x00, [0x00, 0, 0, 0], 1),
            (0x0A, [0x0A, 0, 0, 0], 1),
            (0x7F, [0x7F, 0, 0, 0], 1),
            (0x80, [0xC2, 0x80, 0, 0], 2),
            (0x7FF, [0xDF, 0xBF, 0, 0], 2),
            (0x800, [0xE0, 0xA0, 0x80, 0], 3),
            (0xFFF, [0xE0, 0xBF, 0xBF, 0], 3),
            (0xD7FF, [0xED, 0x9F, 0xBF, 0], 3),
            (0xE000, [0xEE, 0x80, 0x80, 0], 3),
            (0xFFFF, [0xEF, 0xBF, 0xBF, 0], 3),
            (0x10000, [0xF0, 0x90, 0x80, 0x80], 4),
            (0x3FFFF, [0xF0, 0xBF, 0xBF, 0xBF], 4),
            (0x10FFFF, [0xF4, 0x8F, 0xBF, 0xBF], 4),
        ];
        for (character, bytes, length) in cases {
            assert!(rt; length <= 4);
            assert_eq!(rt; Utf8.read(&bytes[0..length]), decoded(character, length));
            assert_eq!(rt; Utf8.read(&bytes), decoded(character, length));
            let spelling = Utf8.spell(character).ok_or("unspelled")?;
            assert_eq!(rt; spelling.as_bytes(), &bytes[0..length]);
            for cut in 0..length {
                assert_eq!(rt; Utf8.read(&bytes[0..cut]), None);
            }
        }
        Ok(())
    }

    #[test]
    fn unspelled(rt: HostRuntime) {
        for character in [0xD800, 0xDBFF, 0xDC00, 0xDFFF, 0x110000, 0xFFFF_FFFF] {
            assert!(rt; Utf8.spell(character).is_none());
            assert_eq!(rt;
                spelled_length(&Utf8, Permitted::Any, &[65, character]),
                fault(1)
            );
        }
    }

    // Stray bytes, longer forms than needed, surrogates, numbers above 10FFFF, and forms broken off.
    #[test]
    fn malformed(rt: HostRuntime) {
        let cases: [[u8; 4]; 21] = [
            [0x80, 0x80, 0x80, 0x80],
            [0xBF, 0x80, 0x80, 0x80],
            [0xC0, 0x80, 0x80, 0x80],
            [0xC1, 0xBF, 0x80, 0x80],
            [0xE0, 0x80, 0x80, 0x80],
            [0xE0, 0x9F, 0xBF, 0x80],
            [0xF0, 0x80, 0x80, 0x80],
            [0xF0, 0x8F, 0xBF, 0xBF],
            [0xED, 0xA0, 0x80, 0x80],
            [0xED, 0xBF, 0xBF, 0x80],
            [0xF4, 0x90, 0x80, 0x80],
            [0xF5, 0x80, 0x80, 0x80],
            [0xF8, 0x88, 0x80, 0x80],
            [0xFF, 0x80, 0x80, 0x80],
            [0xC2, 0x41, 0x80, 0x80],
            [0xC2, 0xC0, 0x80, 0x80],
            [0xE2, 0x41, 0x80, 0x80],
            [0xE2, 0x89, 0x41, 0x80],
            [0xF0, 0x41, 0x80, 0x80],
            [0xF0, 0x90, 0x41, 0x80],
            [0xF0, 0x90, 0x80, 0x41],
        ];
        for bytes in cases {
            assert_eq!(rt; Utf8.read(&bytes), None);
            assert_eq!(rt; count_characters(&Utf8, Permitted::Any, &bytes), fault(0));
            let behind = [0xC3, 0xBC, bytes[0], bytes[1], bytes[2], bytes[3]];
            assert_eq!(rt; count_characters(&Utf8, Permitted::Any, &behind), fault(2));
        }
        assert_eq!(rt; Utf8.read(&[]), None);
    }

    #[test]
    fn latin1_bytes(rt: HostRuntime) -> Result<(), Fail> {
        for byte in 0..=255u8 {
            assert_eq!(rt; Latin1.read(&[byte, 7]), decoded(byte as u32, 1));
            let spelling = Latin1.spell(byte as u32).ok_or("unspelled")?;
            assert_eq!(rt; spelling.as_bytes(), [byte].as_slice());
        }
        assert_eq!(rt; Latin1.read(&[]), None);
        assert!(rt; Latin1.spell(256).is_none() && Latin1.spell(0x10FFFF).is_none());
        Ok(())
    }

    #[test]
    fn one_text_in_both_codes(rt: HostRuntime) {
        let mut buffer = [1; 25];
        assert_eq!(rt;
            spelled_length(&Utf8, Permitted::TicketText, &AZUBI),
            Ok(23)
        );
        assert_eq!(rt;
            spelled_length(&Latin1, Permitted::TicketText, &AZUBI),
            Ok(22)
        );
        assert_eq!(rt; lay_characters(&Utf8, &AZUBI, &mut buffer, 1), Some(24));
        assert!(rt; buffer[0] == 1 && buffer[24] == 1);
        assert_eq!(rt;
            count_characters(&Utf8, Permitted::TicketText, &buffer[1..24]),
            Ok(22)
        );
        assert_eq!(rt;
            count_characters(&Latin1, Permitted::Any, &buffer[1..24]),
            Ok(23)
        );
    }

    #[test]
    fn allowed_characters(rt: HostRuntime) {
        for character in [0, 9, 11, 31, 127, 128, 159] {
            assert!(rt; !is_allowed(character));
            assert_eq!(rt;
                spelled_length(&Utf8, Permitted::TicketText, &[32, 10, character]),
                fault(2)
            );
        }
        for character in [10, 32, 126, 160, 0xAD, 0x10FFFF] {
            assert!(rt; is_allowed(character));
        }
        assert_eq!(rt;
            count_characters(&Utf8, Permitted::TicketText, &[0xC3, 0xBC, 10, 9]),
            fault(3)
        );
        assert_eq!(rt;
            count_characters(&Utf8, Permitted::Any, &[0xC3, 0xBC, 10, 9]),
            Ok(3)
        );
        assert_eq!(rt; count_characters(&Utf8, Permitted::TicketText, &[]), Ok(0));
    }

    #[test]
    fn refused_layings(rt: HostRuntime) {
        let cases: [([u32; 2], usize); 4] = [
            ([252, 252], 1),
            ([65, 66], 5),
            ([65, 66], 0xFFFF_FFFF_FFFF_FFFF),
            ([65, 0xD800], 0),
        ];
        for (characters, place) in cases {
            let mut buffer = [1, 2, 3, 4];
            assert_eq!(rt;
                lay_characters(&Utf8, &characters, &mut buffer, place),
                None
            );
            assert_eq!(rt; buffer, [1, 2, 3, 4]);
        }
        let mut buffer = [1, 2, 3, 4];
        assert_eq!(rt; lay_characters(&Utf8, &[252], &mut buffer, 1), Some(3));
        assert_eq!(rt; buffer, [1, 0xC3, 0xBC, 4]);
        assert_eq!(rt; lay_characters(&Utf8, &[], &mut buffer, 4), Some(4));
    }

    // One type of code, two meanings: each value has the sign that is lent to it.
    #[test]
    fn lent_signs(rt: HostRuntime) {
        for sign in [8364, 9731] {
            let code = WithSign {
                sign: Lent { character: &sign },
            };
            assert_eq!(rt; code.read(&[128, 65]), decoded(sign, 1));
            assert_eq!(rt;
                count_characters(&code, Permitted::Any, &[65, 128, 129]),
                fault(2)
            );
            assert_eq!(rt;
                spelled_length(&code, Permitted::Any, &[65, sign, sign + 1]),
                fault(2)
            );
            let mut buffer = [0; 3];
            assert_eq!(rt; lay_characters(&code, &[65, sign], &mut buffer, 1), Some(3));
            assert_eq!(rt; buffer, [0, 65, 128]);
        }
    }
}
