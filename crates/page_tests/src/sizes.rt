use super::probe::{is_blank, is_made, size, takes_a_frame};
use page::{PackedPage, Page, PlanarPage, Size};
use std::test::Fail;

// lines, columns and room that are given, and the lines and columns that come of it
const MAKES: [(usize, usize, usize, (usize, usize)); 16] = [
    (0, 0, 0, (0, 0)),
    (0, 72, 0, (0, 72)),
    (15, 0, 0, (15, 0)),
    (1, 1, 1, (1, 1)),
    (1, 1, 0, (0, 0)),
    (15, 72, 1080, (15, 72)),
    (15, 72, 1079, (0, 0)),
    (15, 72, 1600, (15, 72)),
    (1000, 1, 1000, (1000, 1)),
    (1, 1000, 1000, (1, 1000)),
    (1000, 1, 999, (0, 0)),
    (1001, 1, 1600, (0, 0)),
    (1, 1001, 1600, (0, 0)),
    (1001, 0, 1600, (0, 0)),
    (1000, 0, 0, (1000, 0)),
    (usize::MAX, usize::MAX, 1600, (0, 0)),
];

// a function for each make, since what a page is lent has to live beside it
/// Whether that holds of each page of the table in one memory, whatever the memory held.
fn packed_makes<F: Fn(&mut PackedPage, Size) -> bool>(holds: F) -> bool
    requires { F.IsAlwaysCallable holds }
{
    MAKES.into_iter().all(|(lines, columns, room, made)| {
        let mut words = [u32::MAX; 1600];
        let mut page = PackedPage::new(lines, columns, &mut words[..room.min(1600)]);
        holds(&mut page, size(made.0, made.1))
    })
}

/// Whether that holds of each page of the table in two memories, whatever they held.
fn planar_makes<F: Fn(&mut PlanarPage, Size) -> bool>(holds: F) -> bool
    requires { F.IsAlwaysCallable holds }
{
    MAKES.into_iter().all(|(lines, columns, room, made)| {
        let mut characters = [65; 1600];
        let mut formattings = [255; 1600];
        let room = room.min(1600);
        let mut page = PlanarPage::new(
            lines,
            columns,
            &mut characters[..room],
            &mut formattings[..room],
        );
        holds(&mut page, size(made.0, made.1))
    })
}

// a test for each make, so that a failure names the make
#[test]
fn packed_sizes(rt: HostRuntime) {
    assert!(rt; packed_makes(|page, made| is_blank(page, made)));
}

#[test]
fn planar_sizes(rt: HostRuntime) {
    assert!(rt; planar_makes(|page, made| is_blank(page, made)));
}

#[test]
fn packed_corners(rt: HostRuntime) {
    assert!(rt; packed_makes(|page, made| is_made(page, made)));
}

#[test]
fn planar_corners(rt: HostRuntime) {
    assert!(rt; planar_makes(|page, made| is_made(page, made)));
}

// a test for each make, since its memories live beside the page, and one of them gets shorter in between
#[test]
fn packed_largest(rt: HostRuntime) -> Result<(), Fail> {
    let mut words = vec![in rt.alloc(); u32::MAX; 1_000_000]?;
    let mut page = PackedPage::new(1000, 1000, &mut words);
    assert!(rt; is_made(&mut page, size(1000, 1000)));
    let _ = words.pop();
    let mut page = PackedPage::new(1000, 1000, &mut words);
    assert!(rt; is_made(&mut page, size(0, 0)));
    Ok(())
}

#[test]
fn planar_largest(rt: HostRuntime) -> Result<(), Fail> {
    let mut characters = vec![in rt.alloc(); 65; 1_000_000]?;
    let mut formattings = vec![in rt.alloc(); 255; 1_000_000]?;
    let mut page = PlanarPage::new(1000, 1000, &mut characters, &mut formattings);
    assert!(rt; is_made(&mut page, size(1000, 1000)));
    let _ = formattings.pop();
    let mut page = PlanarPage::new(1000, 1000, &mut characters, &mut formattings);
    assert!(rt; is_made(&mut page, size(0, 0)));
    Ok(())
}

#[test]
fn planar_memory_one_short(rt: HostRuntime) {
    let mut characters = [65; 1080];
    let mut characters_short = [65; 1079];
    let mut formattings = [7; 1080];
    let mut formattings_short = [7; 1079];
    let narrow = PlanarPage::new(15, 72, &mut characters_short, &mut formattings);
    let low = PlanarPage::new(15, 72, &mut characters, &mut formattings_short);
    assert!(rt; narrow.size() == size(0, 0) && low.size() == size(0, 0));
}

// a test for each make, since what a page is lent has to live beside it
#[test]
fn packed_frame(rt: HostRuntime) {
    let mut words = [7; 1080];
    assert!(rt; takes_a_frame(&mut PackedPage::new(15, 72, &mut words)));
}

#[test]
fn planar_frame(rt: HostRuntime) {
    let mut characters = [65; 1080];
    let mut formattings = [255; 1080];
    assert!(rt; takes_a_frame(&mut PlanarPage::new(15, 72, &mut characters, &mut formattings)));
}
