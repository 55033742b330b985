ghost use Rattle.std.specs.Prelude.{◌≡◌, map, not, drop};
ghost use Rattle.std.specs.List.{list_all};
ghost use Rattle.field.specs.Areas.{area_of_cells};
ghost use Rattle.field_layers.specs.Layers.{AtMostOne, CountsAt, CountsIn, LastOn, LawfulCounting, LawfulCovers, LawfulRectangles, MeetWhereShared, begins_on, meets, meets_none};
ghost use Rattle.field_layers.specs.FieldAnswers.{PeriodAt, ZonesAt};

use field::{Cells, HasCells};

/// Whether two things have a cell in common.
fn meet(a: Cells, b: Cells) -> bool
    ensures { result ≡ meets (area_of_cells a) (area_of_cells b) }
{
    let first_line = a.line.max(b.line) as u64;
    let last_line = (a.line as u64 + a.height as u64).min(b.line as u64 + b.height as u64);
    let first_column = a.column.max(b.column) as u64;
    let last_column = (a.column as u64 + a.width as u64).min(b.column as u64 + b.width as u64);
    first_line < last_line && first_column < last_column
}

/// Whether a thing begins at a cell and covers it.
fn begins_on(cells: Cells, line: usize, column: usize) -> bool
    ensures { result ≡ begins_on (area_of_cells cells) line column }
{
    cells.line as usize == line
        && cells.column as usize == column
        && 1 <= cells.height
        && 1 <= cells.width
}

/// The index of the last field that begins at a cell and covers it.
fn last_on<F: HasCells>(fields: &[F], line: usize, column: usize) -> Option<usize>
    ensures { LastOn F.HasCells.area fields.now line column result }
{
    fields
        .iter()
        .rposition(|field| begins_on(field.cells(), line, column))
}

/// Whether a thing has no cell in common with any field from an index on.
fn meets_none<F: HasCells>(cells: Cells, fields: &[F], from: usize) -> bool
    ensures { result ≡ list_all (λ x. not (meets (area_of_cells cells) (F.HasCells.area x))) (drop from fields.now) }
{
    fields
        .iter()
        .skip(from)
        .all(|field| !meet(cells, field.cells()))
}

// line and column are two numbers, as in a page's cells
/// The index of the field that counts at a cell: it begins there, and no later field covers any of its cells.
pub fn counting_field<F: HasCells>(fields: &[F], line: usize, column: usize) -> Option<usize>
    ensures answer { CountsAt (map F.HasCells.area fields.now) line column result }
    ensures field { CountsIn (map F.HasCells.area fields.now) line column result }
    ensures one { AtMostOne }
    ensures shared { MeetWhereShared }
    ensures rectangles { LawfulRectangles }
    ensures lawful { LawfulCovers }
    ensures counting { LawfulCounting }
{
    let last = last_on(fields, line, column)?;
    if meets_none(fields[last].cells(), fields, last + 1) {
        Some(last)
    } else {
        None
    }
}

/// The index of the field that counts at the zone cell: line 1, column 12.
pub fn zone_field<F: HasCells>(fields: &[F]) -> Option<usize>
    ensures answer { CountsAt (map F.HasCells.area fields.now) 1 12 result }
    ensures zones { ZonesAt (map F.HasCells.area fields.now) result }
{
    counting_field(fields, 1, 12)
}

/// The index of the field that counts at the period cell: line 3, column 1.
pub fn period_field<F: HasCells>(fields: &[F]) -> Option<usize>
    ensures answer { CountsAt (map F.HasCells.area fields.now) 3 1 result }
    ensures period { PeriodAt (map F.HasCells.area fields.now) result }
{
    counting_field(fields, 3, 1)
}
