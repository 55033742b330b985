ghost use Rattle.std.specs.Prelude.{◌≡◌, ◌+◌, ◌<◌, ◌≤◌};

// By place, and no iterator, as at `Characters`.
/// A place of a source, with the row and the column that wrapping has reached there.
#[derive(Clone, Copy)]
pub(crate) struct Cursor {
    pub(crate) place: usize,
    pub(crate) row: usize,
    pub(crate) column: usize,
    ghost reached: { (row ≤ place) × (column ≤ place) },
}

/// A step over one character: from the cursor where it stands to the place behind it.
#[derive(Clone, Copy)]
pub(crate) struct Step {
    pub(crate) from: Cursor,
    pub(crate) end: usize,
    ghost ahead: { from.place < end },
}

/// A word of a source: where it starts and ends there, how many characters it has, and where it is printed.
#[derive(Clone, Copy)]
pub(crate) struct Word {
    pub(crate) start: usize,
    pub(crate) end: usize,
    pub(crate) length: usize,
    pub(crate) row: usize,
    pub(crate) column: usize,
    ghost reached: { (row ≤ end) × (column + length ≤ end) },
}

impl Cursor {
    /// The front of a source.
    pub(crate) fn start() -> Cursor
        ensures { (result.place ≡ 0) × (result.row ≡ 0) × (result.column ≡ 0) }
    {
        Cursor {
            place: 0,
            row: 0,
            column: 0,
        }
    }
}
