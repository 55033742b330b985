use page::{Cell, Page, PlaceError, Size};

pub(crate) const INK: Cell = Cell {
    character: 1_114_111,
    formatting: 7,
};

pub(crate) fn size(lines: usize, columns: usize) -> Size {
    Size { lines, columns }
}

pub(crate) fn shows<P: Page>(page: &P, line: usize, column: usize, cell: Cell) -> bool {
    page.cell(line, column) == Some(cell)
}

fn count_in_line<P: Page>(page: &P, line: usize, columns: usize, cell: Cell) -> usize {
    (0..columns)
        .filter(|column| shows(page, line, *column, cell))
        .count()
}

/// How many of the cells in the first lines and columns show that.
pub(crate) fn count<P: Page>(page: &P, first: Size, cell: Cell) -> usize {
    (0..first.lines).fold(0, |count: usize, line| {
        count.saturating_add(count_in_line(page, line, first.columns, cell))
    })
}

/// Whether a page has that size, shows a blank in every cell, and turns down each place next to it.
pub(crate) fn is_blank<P: Page>(page: &mut P, made: Size) -> bool {
    let Size { lines, columns } = made;
    let places = [
        (lines, 0),
        (0, columns),
        (lines, columns),
        (lines, columns.saturating_sub(1)),
        (lines.saturating_sub(1), columns),
        (usize::MAX, 0),
        (0, usize::MAX),
    ];
    places.into_iter().all(|(line, column)| {
        page.place(line, column, INK) == Err(PlaceError::Outside) && page.cell(line, column) == None
    }) && page.size() == made
        && count(page, made, Cell::blank()) == lines.saturating_mul(columns)
}

/// Whether a page is blank and has that size, and takes a cell in each of its corners, if it has any.
pub(crate) fn is_made<P: Page>(page: &mut P, made: Size) -> bool {
    let bottom = made.lines.saturating_sub(1);
    let right = made.columns.saturating_sub(1);
    let some = made.lines > 0 && made.columns > 0;
    let corners = [(0, 0), (0, right), (bottom, 0), (bottom, right)];
    is_blank(page, made)
        && corners.into_iter().all(|(line, column)| {
            page.place(line, column, INK).is_ok() == some && shows(page, line, column, INK) == some
        })
}

/// Inks a blank page of 15 lines and 72 columns along its four borders, and tells whether it then
/// shows that and nothing else.
pub(crate) fn takes_a_frame<P: Page>(page: &mut P) -> bool {
    is_blank(page, size(15, 72))
        && (0..72).all(|column| {
            page.place(0, column, INK) == Ok(()) && page.place(14, column, INK) == Ok(())
        })
        && (0..15).all(|line| page.place(line, 0, INK) == Ok(())
            && page.place(line, 71, INK) == Ok(()))
        && count(page, size(15, 72), INK) == 170
        && count(page, size(15, 72), Cell::blank()) == 910
        && page.size() == size(15, 72)
}
