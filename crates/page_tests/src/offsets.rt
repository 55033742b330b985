use super::probe::{INK, count, is_blank, shows, size, takes_a_frame};
use page::{Cell, OffsetPage, PackedPage, Page, PlanarPage};

// a shift in lines and columns, and what remains of 20 lines and 80 columns
const SHIFTS: [((usize, usize), (usize, usize)); 9] = [
    ((5, 8), (15, 72)),
    ((6, 8), (14, 72)),
    ((0, 0), (20, 80)),
    ((3, 80), (17, 0)),
    ((20, 3), (0, 77)),
    ((20, 80), (0, 0)),
    ((19, 79), (1, 1)),
    ((30, 90), (0, 0)),
    ((usize::MAX, 8), (0, 72)),
];

/// Whether the frame lies in the last 15 lines and 72 columns, and nothing else on the page.
fn has_the_frame<P: Page>(page: &P) -> bool {
    page.size() == size(20, 80)
        && count(page, size(20, 80), INK) == 170
        && count(page, size(20, 80), Cell::blank()) == 1430
        && count(page, size(5, 80), Cell::blank()) == 400
        && count(page, size(20, 8), Cell::blank()) == 160
        && shows(page, 5, 8, INK)
        && shows(page, 19, 79, INK)
}

fn frames_below<P: Page + Drop>(below: P) -> bool {
    let mut page = OffsetPage::new(below, 5, 8);
    let framed = takes_a_frame(&mut page);
    let below = page.into_inner();
    framed && has_the_frame(&below)
}

fn frames_two_below<P: Page + Drop>(below: P) -> bool {
    let mut page = OffsetPage::new(OffsetPage::new(below, 2, 8), 3, 0);
    let framed = takes_a_frame(&mut page);
    let window = page.into_inner();
    let shown = window.size() == size(18, 72)
        && shows(&window, 3, 0, INK)
        && shows(&window, 2, 0, Cell::blank());
    let below = window.into_inner();
    framed && shown && has_the_frame(&below)
}

// a test for each make, since what a page is lent has to live beside it
#[test]
fn packed_shifts(rt: HostRuntime) {
    for ((down, right), (lines, columns)) in SHIFTS {
        let mut words = [7; 1600];
        let below = PackedPage::new(20, 80, &mut words);
        let mut page = OffsetPage::new(below, down, right);
        assert!(rt; is_blank(&mut page, size(lines, columns)));
    }
}

#[test]
fn planar_shifts(rt: HostRuntime) {
    for ((down, right), (lines, columns)) in SHIFTS {
        let mut characters = [65; 1600];
        let mut formattings = [255; 1600];
        let below = PlanarPage::new(20, 80, &mut characters, &mut formattings);
        let mut page = OffsetPage::new(below, down, right);
        assert!(rt; is_blank(&mut page, size(lines, columns)));
    }
}

// the memories stand in each test again, since what a page is lent has to live beside it
#[test]
fn packed_windows(rt: HostRuntime) {
    let mut words = [7; 1600];
    let mut more_words = [7; 1600];
    assert!(rt;
        frames_below(PackedPage::new(20, 80, &mut words))
            && frames_two_below(PackedPage::new(20, 80, &mut more_words))
    );
}

#[test]
fn planar_window(rt: HostRuntime) {
    let mut characters = [65; 1600];
    let mut formattings = [255; 1600];
    assert!(rt; frames_below(PlanarPage::new(20, 80, &mut characters, &mut formattings)));
}

#[test]
fn planar_window_on_a_window(rt: HostRuntime) {
    let mut characters = [65; 1600];
    let mut formattings = [255; 1600];
    assert!(rt; frames_two_below(PlanarPage::new(20, 80, &mut characters, &mut formattings)));
}
