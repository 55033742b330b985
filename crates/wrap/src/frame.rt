use field::Rectangle;

/// A rectangle, and the formatting of all that is printed in it.
// The formatting is any number, not a type of eight: a caller of `print` may hand in any.
#[derive(Clone, Copy)]
pub(crate) struct Frame {
    pub(crate) rectangle: Rectangle,
    pub(crate) formatting: u8,
}
