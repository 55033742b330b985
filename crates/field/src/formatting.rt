ghost use Rattle.std.specs.Prelude.{◌≤◌};

/// A formatting: bold 1, italic 2 and small 4, added.
#[derive(Clone, Copy, PartialEq, Eq, Debug)]
pub struct Formatting {
    pub value: u8,
    ghost lawful: { value ≤ 7 },
}
