use text_code::{Latin1, Utf8};
use wrap::TextFault::{Character, TooLarge};
use wrap::{check_characters, check_text};

#[test]
fn fits_by_words(rt: HostRuntime) {
    let cases: [(&[u8], usize, usize, bool); 26] = [
        (b"EIN TAG GILT", 2, 7, true),
        (b"EIN TAG GILT", 2, 6, false),
        (b"EIN TAG GILT", 3, 6, true),
        (b"A\n\nB", 3, 1, true),
        (b"A\n\nB", 2, 1, false),
        (b"A\n\n", 1, 1, true),
        (b"\n\n\n\n", 1, 1, true),
        (b"   AB", 2, 4, true),
        (b"   AB", 1, 4, false),
        (b"  AB", 1, 4, true),
        (b"ABCDE", 15, 4, false),
        (b"ABCDE", 1, 5, true),
        (b"", 1, 3, true),
        (b"    ", 1, 1, true),
        (b"A B", 2, 1, true),
        (b"A B", 1, 1, false),
        (b"AB", 2, 1, false),
        (b"ABCD EF", 1, 7, true),
        (b"ABCD EFG", 1, 7, false),
        (b"ABCD EFG", 2, 7, true),
        (b"AB      CD", 2, 2, true),
        (b"  AB  ", 2, 2, true),
        (b"  AB  ", 1, 2, false),
        (b"AB\nCD", 2, 2, true),
        (b"\xc3\x84\xc3\x96\xc3\x9c", 1, 3, true),
        (b"\xc3\x84\xc3\x96\xc3\x9c", 15, 2, false),
    ];
    for (text, height, width, fits) in cases {
        let expected = if fits { Ok(()) } else { Err(TooLarge) };
        assert_eq!(rt; check_text(&Utf8, text, height, width), expected);
    }
}

#[test]
fn faults_come_before_the_fit(rt: HostRuntime) {
    assert_eq!(rt; check_text(&Utf8, b"AB\x1fCDE", 1, 2), Err(Character(2)));
    assert_eq!(rt; check_text(&Utf8, b"ABCDE\xff", 1, 1), Err(Character(5)));
    assert_eq!(rt; check_text(&Utf8, b"\xc3", 1, 1), Err(Character(0)));
    assert_eq!(rt; check_text(&Latin1, b"\xc4\xd6\xdc", 1, 3), Ok(()));
    assert_eq!(rt; check_text(&Latin1, b"\xc4\xd6\xdc", 1, 2), Err(TooLarge));
    assert_eq!(rt; check_text(&Latin1, b"AB\x9f", 1, 1), Err(Character(2)));
}

#[test]
fn numbers_are_checked_by_index(rt: HostRuntime) {
    assert_eq!(rt; check_characters(&Utf8, &[196, 8364, 65], 1, 3), Ok(()));
    assert_eq!(rt;
        check_characters(&Utf8, &[196, 8364, 65], 1, 2),
        Err(TooLarge)
    );
    assert_eq!(rt;
        check_characters(&Latin1, &[196, 8364, 65], 1, 2),
        Err(Character(1))
    );
    assert_eq!(rt;
        check_characters(&Utf8, &[65, 32, 66, 127], 1, 1),
        Err(Character(3))
    );
    assert_eq!(rt; check_characters(&Utf8, &[], 1, 1), Ok(()));
}

/// 15 words of 72 characters, each with a line feed behind it.
fn full_area() -> [u8; 1095] {
    let mut text = [65; 1095];
    for row in text.chunks_exact_mut(73) {
        if let Some(last) = row.last_mut() {
            *last = 10;
        }
    }
    text
}

#[test]
fn a_full_area_fits(rt: HostRuntime) {
    let text = full_area();
    assert_eq!(rt; check_text(&Utf8, &[65; 1095], 15, 72), Err(TooLarge));
    assert_eq!(rt; check_text(&Utf8, &text, 15, 72), Ok(()));
    assert_eq!(rt; check_text(&Utf8, &text, 14, 72), Err(TooLarge));
    assert_eq!(rt; check_text(&Utf8, &text, 15, 71), Err(TooLarge));
}
