use field::{Formatting, Placed, Rectangle};
use field_layers::{counting_field, period_field, zone_field};
use std::test::Fail;

/// A field that holds more than its rectangle.
#[derive(Clone, Copy)]
struct Entry {
    rectangle: Rectangle,
    formatting: Formatting,
    length: usize,
}

impl Placed for Entry {
    ghost place = { λ x. x.rectangle };

    fn rectangle(&self) -> Rectangle {
        self.rectangle
    }
}

fn field(line: usize, column: usize, height: usize, width: usize) -> Result<Rectangle, Fail> {
    Ok(Rectangle::new(line, column, height, width).ok_or("no rectangle")?)
}

#[test]
fn two_fields(rt: HostRuntime) -> Result<(), Fail> {
    let zones = field(1, 12, 1, 39)?;
    let cases = [
        (zones, zones, Some(1)),
        (zones, field(1, 12, 1, 7)?, Some(1)),
        (zones, field(1, 50, 1, 1)?, None),
        (field(1, 50, 1, 1)?, zones, Some(1)),
        (zones, field(1, 51, 1, 1)?, Some(0)),
        (zones, field(2, 12, 1, 39)?, Some(0)),
        (zones, field(0, 11, 2, 2)?, None),
        (field(3, 1, 1, 20)?, field(4, 1, 1, 20)?, None),
    ];
    for (first, second, counting) in cases {
        assert_eq!(rt; zone_field(&[first, second]), counting);
    }
    Ok(())
}

#[test]
fn other_cells(rt: HostRuntime) -> Result<(), Fail> {
    let fields = [field(3, 1, 2, 41)?, field(4, 1, 1, 1)?, field(3, 1, 1, 41)?];
    assert_eq!(rt; period_field(&fields), Some(2));
    assert_eq!(rt; period_field(&fields[0..2]), None);
    assert_eq!(rt; counting_field(&fields, 4, 1), Some(1));
    assert_eq!(rt; zone_field(&fields), None);
    assert_eq!(rt; zone_field(&fields[0..0]), None);
    Ok(())
}

#[test]
fn entries_that_hold_more(rt: HostRuntime) -> Result<(), Fail> {
    let formatting = Formatting::new(1).ok_or("no formatting")?;
    let first = Entry {
        rectangle: field(1, 12, 1, 39)?,
        formatting,
        length: 3,
    };
    let second = Entry {
        rectangle: field(3, 1, 1, 41)?,
        formatting,
        length: 41,
    };
    let entries = [first, second, first];
    assert_eq!(rt; zone_field(&entries), Some(2));
    assert_eq!(rt; period_field(&entries), Some(1));
    assert_eq!(rt; entries[1].length, 41);
    assert_eq!(rt; entries[1].formatting.value, 1);
    Ok(())
}
