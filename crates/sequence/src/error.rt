/// Why a call on a list was refused.
#[derive(Clone, Copy, Debug, PartialEq, Eq)]
pub enum SequenceError {
    /// There is no such entry, or a range does not lie within the entries.
    OutOfRange,
    /// The memory has no room for so many.
    Full,
}
