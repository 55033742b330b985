use std::process::Abort;
use text_code::{Latin1, ReadingCode, Utf8};
use validity::{Period, ZoneKind, Zones, period_of_text, zones_of_text};

/// The zones of each text, in the code.
fn zones_in<C: ReadingCode>(rt: &impl Abort, code: &C) {
    let cases: [(&[u8], ZoneKind, u32); 18] = [
        (b"Netz", ZoneKind::All, 1000),
        (b"110 151 152", ZoneKind::Listed, 3),
        (b"110 110", ZoneKind::Listed, 1),
        (b"000", ZoneKind::Listed, 1),
        (b"999", ZoneKind::Listed, 1),
        (b"", ZoneKind::Plain, 0),
        (b"netz", ZoneKind::Plain, 0),
        (b"Netz ", ZoneKind::Plain, 0),
        (b"110  151", ZoneKind::Plain, 0),
        (b"110 ", ZoneKind::Plain, 0),
        (b" 110", ZoneKind::Plain, 0),
        (b"1100", ZoneKind::Plain, 0),
        (b"11", ZoneKind::Plain, 0),
        (b"110\n151", ZoneKind::Plain, 0),
        (b"110 15", ZoneKind::Plain, 0),
        (b"110,151", ZoneKind::Plain, 0),
        (b"11\xC2\xB2", ZoneKind::Plain, 0),
        (b"11\xEF\xBC\x90", ZoneKind::Plain, 0),
    ];
    for (text, kind, count) in cases {
        let zones = zones_of_text(code, text);
        assert_eq!(rt; zones.kind, kind);
        assert_eq!(rt; zones.count, count);
    }
}

#[test]
fn zones_in_both_codes(rt: HostRuntime) {
    zones_in(&rt, &Utf8);
    zones_in(&rt, &Latin1);
}

#[test]
fn words_of_a_list(rt: HostRuntime) {
    let mut words = [0; 16];
    words[0] = 1;
    words[1] = 1 << 46;
    words[2] = 3 << 23;
    words[15] = 1 << 39;
    let listed = Zones {
        kind: ZoneKind::Listed,
        words,
        count: 5,
    };
    assert_eq!(rt; zones_of_text(&Utf8, b"999 151 000 110 152"), listed);
}

#[test]
fn periods(rt: HostRuntime) {
    let cases: [(&[u8], u64, u64); 4] = [
        (
            b"16.07.2010 17:10:55 - 16.07.2010 18:10:55",
            63_414_897_055,
            63_414_900_655,
        ),
        (
            b"16.07.2010 17:10:55 - 16.07.2010 17:10:55",
            63_414_897_055,
            63_414_897_055,
        ),
        (
            b"29.02.2016 00:00:00 - 29.02.2016 00:00:00",
            63_592_300_800,
            63_592_300_800,
        ),
        (
            b"01.01.0001 00:00:00 - 31.12.9999 23:59:59",
            0,
            315_537_897_599,
        ),
    ];
    for (text, begin, end) in cases {
        assert_eq!(rt; period_of_text(text), Some(Period { begin, end }));
    }
}

#[test]
fn plain_periods(rt: HostRuntime) {
    let cases: [&[u8]; 14] = [
        b"",
        b"29.02.2015 00:00:00 - 01.03.2015 00:00:00",
        b"16.07.2010 17:10:56 - 16.07.2010 17:10:55",
        b"16.07.2010 - 17.07.2010",
        b"16.07.2010 17:10:60 - 16.07.2010 18:10:55",
        b"16.07.2010 24:00:00 - 17.07.2010 00:00:00",
        b"16.07.0000 17:10:55 - 16.07.2010 18:10:55",
        b"16-07.2010 17:10:55 - 16.07.2010 18:10:55",
        b"16.07.2010_17:10:55 - 16.07.2010 18:10:55",
        b"16.07.2010 17:10:55 _ 16.07.2010 18:10:55",
        b"16.07.2010 17:10:55 - 16.07.2010 18:10:5:",
        b"16.07.2010 17:10:55 - 16.07.2010 18:10:5",
        b"16.07.2010 17:10:55 - 16.07.2010 18:10:550",
        b" 6.07.2010 17:10:55 - 16.07.2010 18:10:55",
    ];
    for text in cases {
        assert_eq!(rt; period_of_text(text), None);
    }
}
