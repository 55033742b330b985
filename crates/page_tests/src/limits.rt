use super::probe::shows;
use page::{Cell, OffsetPage, PackedPage, Page, PlaceError, PlanarPage};

const LAWFUL: [(u32, u8); 5] = [(0, 0), (1_114_111, 7), (1_114_111, 0), (0, 7), (32, 4)];

const UNLAWFUL: [(u32, u8); 4] = [(1_114_112, 0), (0, 8), (1_114_112, 8), (u32::MAX, u8::MAX)];

/// Whether each unlawful cell is turned down, inside and outside.
fn turns_down_unlawful<P: Page>(page: &mut P) -> bool {
    UNLAWFUL.into_iter().all(|(character, formatting)| {
        let cell = Cell {
            character,
            formatting,
        };
        page.place(1, 1, cell) == Err(PlaceError::Unlawful)
            && page.place(2, 1, cell) == Err(PlaceError::Outside)
    })
}

/// Whether each lawful cell is set, and stays when unlawful ones are turned down.
fn keeps_lawful<P: Page>(page: &mut P) -> bool {
    LAWFUL.into_iter().all(|(character, formatting)| {
        let cell = Cell {
            character,
            formatting,
        };
        page.place(1, 1, cell) == Ok(()) && turns_down_unlawful(page) && shows(page, 1, 1, cell)
    }) && shows(page, 0, 0, Cell::blank())
}

// a test for each make, since what a page is lent has to live beside it
#[test]
fn packed_limits(rt: HostRuntime) {
    let mut words = [0; 4];
    assert!(rt; keeps_lawful(&mut PackedPage::new(2, 2, &mut words)));
}

#[test]
fn bare_planar_limits(rt: HostRuntime) {
    let mut characters = [0; 4];
    let mut formattings = [0; 4];
    assert!(rt; keeps_lawful(&mut PlanarPage::new(2, 2, &mut characters, &mut formattings)));
}

#[test]
fn planar_limits(rt: HostRuntime) {
    let mut characters = [0; 9];
    let mut formattings = [0; 9];
    let below = PlanarPage::new(3, 3, &mut characters, &mut formattings);
    assert!(rt; keeps_lawful(&mut OffsetPage::new(below, 1, 1)));
}
