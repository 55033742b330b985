use field::Formatting;
use page::Cell;
use std::test::Fail;
use text_code::{Latin1, Utf8};
use wrap::{Encoded, Grid, Numbers, Rectangle};

/// Whether cells of one line from a column on show the characters in a formatting. A dot is a blank.
fn line_shows(grid: &Grid, line: usize, column: usize, formatting: u8, expected: &[u8]) -> bool {
    (column..).zip(expected).all(|(column, byte)| {
        let character = match *byte {
            b'.' => 32,
            other => other as u32,
        };
        grid.cell(line, column)
            == Some(Cell {
                character,
                formatting,
            })
    })
}

/// Whether cells from a line and a column on, in rows of a width, show the characters in a formatting.
fn shows(
    grid: &Grid,
    line: usize,
    column: usize,
    width: usize,
    formatting: u8,
    expected: &[u8],
) -> bool {
    width > 0
        && (line..).zip(expected.chunks(width)).all(|(line, row)| line_shows(
            grid, line, column, formatting, row,
        ))
}

/// How many cells have a formatting.
fn formatted(grid: &Grid, formatting: u8) -> usize {
    (0..1080usize)
        .filter_map(|i| grid.cell(i / 72, i % 72))
        .filter(|cell| cell.formatting == formatting)
        .count()
}

#[test]
fn prints_in_the_rectangle_alone(rt: HostRuntime) -> Result<(), Fail> {
    let cases: [(&[u8], usize, usize, &[u8]); 10] = [
        (b"EIN TAG GILT", 2, 7, b"EIN.TAGGILT..."),
        (b"EIN TAG GILT", 3, 6, b"EIN...TAG...GILT.."),
        (b"EIN TAG GILT", 2, 6, b"EIN...TAG..."),
        (b"A\n\nB", 3, 1, b"A.B"),
        (b"   AB", 2, 4, b"....AB.."),
        (b"ABCDE", 2, 4, b"....ABCD"),
        (b"", 1, 3, b"..."),
        (b"  AB  C", 2, 4, b"..ABC..."),
        (b"AB CD", 2, 2, b"ABCD"),
        (b"\xc2\xa0A\xf4\x8f\xbf\xbfB", 1, 2, b".."),
    ];
    for (text, height, width, expected) in cases {
        let mut grid = Grid::new();
        let rectangle = Rectangle::new(3, 5, height, width).ok_or("no rectangle")?;
        grid.print(
            rectangle,
            2,
            &Encoded {
                code: &Utf8,
                bytes: text,
            },
        );
        assert!(rt; shows(&grid, 3, 5, width, 2, expected));
        assert!(rt; height <= 15 && width <= 72);
        assert_eq!(rt; formatted(&grid, 2), height * width);
        assert_eq!(rt; formatted(&grid, 0), 1080 - height * width);
    }
    Ok(())
}

#[test]
fn a_later_field_lies_over_an_earlier(rt: HostRuntime) -> Result<(), Fail> {
    let mut grid = Grid::new();
    let first = Rectangle::new(0, 0, 1, 3).ok_or("no rectangle")?;
    let second = Rectangle::new(0, 1, 1, 2).ok_or("no rectangle")?;
    grid.print(
        first,
        1,
        &Encoded {
            code: &Latin1,
            bytes: b"ABC",
        },
    );
    assert!(rt; shows(&grid, 0, 0, 3, 1, b"ABC"));
    grid.print(second, 4, &Numbers { characters: &[88] });
    assert!(rt; shows(&grid, 0, 0, 1, 1, b"A"));
    assert!(rt; shows(&grid, 0, 1, 2, 4, b"X."));
    assert_eq!(rt; formatted(&grid, 0), 1077);
    Ok(())
}

#[test]
fn rectangles_end_at_the_area(rt: HostRuntime) {
    let cases: [(usize, usize, usize, usize, bool); 8] = [
        (0, 0, 15, 72, true),
        (14, 71, 1, 1, true),
        (0, 0, 0, 1, false),
        (0, 0, 1, 0, false),
        (1, 0, 15, 1, false),
        (0, 1, 1, 72, false),
        (15, 0, 1, 1, false),
        (18446744073709551615, 0, 1, 1, false),
    ];
    for (line, column, height, width, lawful) in cases {
        assert_eq!(rt;
            Rectangle::new(line, column, height, width).is_some(),
            lawful
        );
    }
}

#[test]
fn formattings_end_at_seven(rt: HostRuntime) {
    for value in 0..=255u8 {
        assert_eq!(rt; Formatting::new(value).is_some(), value < 8);
    }
}
