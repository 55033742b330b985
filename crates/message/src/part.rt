ghost use Rattle.std.specs.Prelude.{◌≡◌, ◌+◌, ◌^◌, ◌<◌, ◌≤◌, length};

/// Bytes as a part of a message, and the place where they begin there.
#[derive(Clone, Copy)]
pub struct Part<'m> {
    pub bytes: &'m [u8],
    pub place: usize,
    ghost bounded: { place + length bytes.now < 2 ^ 64 },
}

impl<'m> Part<'m> {
    ghost use Rattle.message.specs.Parts.{StandsAt};

    /// So many bytes of a message from a place on.
    pub(crate) fn of(message: &'m [u8], place: usize, size: usize) -> Part<'m>
        requires { place + size ≤ length message.now }
        ensures { StandsAt message.entry place size result }
    {
        let stop = place + size;
        Part {
            bytes: &message[place..stop],
            place,
        }
    }

    /// The place behind the part.
    pub fn end(self) -> usize
        ensures { result ≡ self.entry.place + length self.entry.bytes.now }
    {
        self.place + self.bytes.len()
    }
}
