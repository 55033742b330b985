ghost use Rattle.std.specs.Prelude.{Some};
ghost use Rattle.show_parts.specs.Lines.{characters};

use std::fmt;

/// Bytes, each printed as the character of its number.
#[derive(Clone, Copy)]
pub(crate) struct Characters<'a> {
    pub(crate) bytes: &'a [u8],
}

impl<'a> fmt::Display for Characters<'a> {
    ghost output = { λ x. Some (characters x.bytes.now) };

    fn fmt<W: fmt::Write>(&self, f: &mut fmt::Formatter<W>) -> fmt::Result {
        for byte in self.bytes {
            let character = *byte as char;
            write!(f, "{character}")?;
        }
        Ok(())
    }
}
