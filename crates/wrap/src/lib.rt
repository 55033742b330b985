//! Wrapping: where each character of a text stands in its rectangle, whether the text fits, and
//! what the rectangle shows.
#![tactic(auto)]

mod checks;
mod classes;
mod cursor;
mod fitting;
mod frame;
mod grid;
mod moves;
mod printing;
mod sources;
mod walking;

pub use checks::{TextFault, check_characters, check_text};
pub use classes::{CharacterClass, class_of};
pub use field::Rectangle;
pub use fitting::fits_in;
pub use grid::Grid;
pub use sources::{Characters, Encoded, Numbers};
