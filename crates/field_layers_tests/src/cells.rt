// The examples of two_fields and other_cells stand here and in fields.rt: of an array of a type parameter nothing says
// that it fits the memory.

use field::Cells;
use field_layers::{counting_field, period_field, zone_field};

fn field(line: u32, column: u32, height: u32, width: u32) -> Cells {
    Cells {
        line,
        column,
        height,
        width,
    }
}

#[test]
fn two_fields(rt: HostRuntime) {
    let zones = field(1, 12, 1, 39);
    let cases = [
        (zones, zones, Some(1)),
        (zones, field(1, 12, 1, 7), Some(1)),
        (zones, field(1, 50, 1, 1), None),
        (field(1, 50, 1, 1), zones, Some(1)),
        (zones, field(1, 51, 1, 1), Some(0)),
        (zones, field(2, 12, 1, 39), Some(0)),
        (zones, field(0, 11, 2, 2), None),
        (field(3, 1, 1, 20), field(4, 1, 1, 20), None),
    ];
    for (first, second, counting) in cases {
        assert_eq!(rt; zone_field(&[first, second]), counting);
    }
}

#[test]
fn other_cells(rt: HostRuntime) {
    let fields = [field(3, 1, 2, 41), field(4, 1, 1, 1), field(3, 1, 1, 41)];
    assert_eq!(rt; period_field(&fields), Some(2));
    assert_eq!(rt; period_field(&fields[0..2]), None);
    assert_eq!(rt; counting_field(&fields, 4, 1), Some(1));
    assert_eq!(rt; zone_field(&fields), None);
    assert_eq!(rt; zone_field::<Cells>(&[]), None);
}

#[test]
fn no_cells(rt: HostRuntime) {
    let nothing = Cells {
        line: 1,
        column: 12,
        height: 0,
        width: 39,
    };
    let zones = Cells {
        height: 1,
        ..nothing
    };
    assert_eq!(rt; zone_field(&[nothing]), None);
    assert_eq!(rt; zone_field(&[zones, nothing]), Some(0));
}

#[test]
fn far_cells(rt: HostRuntime) {
    let far = Cells {
        line: u32::MAX,
        column: u32::MAX,
        height: u32::MAX,
        width: u32::MAX,
    };
    assert_eq!(rt;
        counting_field(&[far, far], 4_294_967_295, 4_294_967_295),
        Some(1)
    );
}
