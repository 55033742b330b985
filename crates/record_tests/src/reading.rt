use head::Head;
use lists::lay;
use refusal::Refusal;

const SAMPLE: &[u8; 53] = b"U_HEAD0100419997       32507828119662005200812310de  ";

/// The sample with other bytes from a place on.
fn changed(place: usize, bytes: &[u8]) -> [u8; 53] {
    let mut message = *SAMPLE;
    lay(&mut message, place, bytes);
    message
}

fn refusal_of(message: &[u8]) -> Option<Refusal> {
    Head::read(message).err().map(Refusal::from)
}

fn refused(number: u8, layer: u8, place: usize) -> Option<Refusal> {
    Some(Refusal {
        number,
        layer,
        record: 0,
        field: 0,
        place,
    })
}

#[test]
fn refuses_the_first_wrong_item(rt: HostRuntime) {
    let cases: [(usize, &[u8], u8, u8, usize); 26] = [
        (0, b"u_head", 2, 2, 0),
        (0, b"U_TLAY", 2, 2, 0),
        (6, b"02", 3, 2, 6),
        (6, b"0x", 3, 2, 6),
        (8, b"00a1", 4, 1, 8),
        (8, b" 041", 4, 1, 8),
        (8, b"0042", 5, 2, 8),
        (8, b"0040", 5, 2, 8),
        (12, b"99 7", 7, 1, 12),
        (15, b":", 7, 1, 12),
        (16, b"\x1f", 7, 1, 16),
        (35, b"\x7f", 7, 1, 16),
        (36, b"3x", 7, 1, 36),
        (36, b"31042008", 7, 1, 36),
        (36, b"00052008", 7, 1, 36),
        (36, b"01132008", 7, 1, 36),
        (36, b"01010000", 7, 1, 36),
        (36, b"29021900", 7, 1, 36),
        (44, b"24", 7, 1, 36),
        (46, b"60", 7, 1, 36),
        (48, b"8", 7, 1, 48),
        (48, b"-", 7, 1, 48),
        (49, b"d1", 7, 1, 49),
        (50, b" ", 7, 1, 49),
        (51, b"e ", 7, 1, 51),
        (51, b" f", 7, 1, 51),
    ];
    for (place, bytes, number, layer, at) in cases {
        assert_eq!(rt;
            refusal_of(&changed(place, bytes)),
            refused(number, layer, at)
        );
    }
}

#[test]
fn accepts_the_borders(rt: HostRuntime) {
    let cases: [(usize, &[u8]); 12] = [
        (12, b"0000"),
        (16, b" "),
        (35, b"~"),
        (36, b"01010001"),
        (36, b"31129999"),
        (36, b"29022000"),
        (36, b"29022008"),
        (44, b"0000"),
        (44, b"2359"),
        (48, b"7"),
        (49, b"aZ"),
        (51, b"Az"),
    ];
    for (place, bytes) in cases {
        assert_eq!(rt; refusal_of(&changed(place, bytes)), None);
    }
}

#[test]
fn refuses_a_cut_message(rt: HostRuntime) {
    let sample = *SAMPLE;
    for end in 0..53 {
        let place = match end {
            0..=5 => 0,
            6..=7 => 6,
            8..=11 => 8,
            _ => 12,
        };
        assert_eq!(rt; refusal_of(&sample[0..end]), refused(1, 2, place));
    }
}

#[test]
fn the_left_item_comes_first(rt: HostRuntime) {
    assert_eq!(rt; refusal_of(b"X_HEAD0"), refused(2, 2, 0));
    assert_eq!(rt; refusal_of(b"X_HEA"), refused(1, 2, 0));
    assert_eq!(rt; refusal_of(b"U_HEAD010042"), refused(5, 2, 8));
    assert_eq!(rt; refusal_of(b"U_HEAD0100419x97"), refused(1, 2, 12));
    assert_eq!(rt;
        refusal_of(&changed(16, b"\x1f                   9x")),
        refused(7, 1, 16)
    );
}
