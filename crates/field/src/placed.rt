ghost use Rattle.std.specs.Prelude.{◌≡◌};
ghost use Rattle.field.specs.declared.rectangle.Rectangle.{Rectangle};

use super::rectangle::Rectangle;

/// What stands in a rectangle.
pub trait Placed {
    ghost place: { Self → Rectangle };

    fn rectangle(&self) -> Rectangle
        ensures value { result ≡ place self.now };
}

impl Placed for Rectangle {
    ghost place = { λ x. x };

    fn rectangle(&self) -> Rectangle {
        *self
    }
}
