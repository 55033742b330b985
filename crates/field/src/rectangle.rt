ghost use Rattle.std.specs.Prelude.{◌+◌, ◌≤◌};

/// A rectangle of at least one cell on the area of 15 lines and 72 columns.
#[derive(Clone, Copy, PartialEq, Eq, Debug)]
pub struct Rectangle {
    pub line: usize,
    pub column: usize,
    pub height: usize,
    pub width: usize,
    ghost lawful: { (1 ≤ height) × (1 ≤ width) × (line + height ≤ 15) × (column + width ≤ 72) },
}
