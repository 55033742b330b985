ghost use Rattle.std.specs.Prelude.{◌≡◌, ◌+◌, ◌-◌, ◌^◌, length, min};

use super::part::Part;

/// Where a field or a carried record begins: which of the fields or of the message's records it is, its place in the
/// message, and for how many bytes of texts or bodies there is still room.
#[derive(Clone, Copy)]
pub struct EntryStart {
    pub number: usize,
    pub place: usize,
    pub room: usize,
}

impl EntryStart {
    /// The first field of a layout, where there is room for so many bytes of texts.
    pub fn of_fields(room: usize) -> EntryStart
        ensures { result ≡ record { number = 0; place = 73; room = room } }
    {
        EntryStart {
            number: 0,
            place: 73,
            room,
        }
    }

    /// The first carried record, which begins at a place, where there is room for so many bytes of bodies.
    pub fn of_carried(place: usize, room: usize) -> EntryStart
        ensures { result ≡ record { number = 2; place = place; room = room } }
    {
        EntryStart {
            number: 2,
            place,
            room,
        }
    }

    /// The next one, behind one that ends with a part of the message: its text or its body.
    pub fn behind(self, part: Part<'_>) -> EntryStart
        ensures { result ≡ record { number = min (self.number + 1) (2 ^ 64 - 1); place = part.entry.place + length part.entry.bytes.now; room = self.room - length part.entry.bytes.now } }
    {
        EntryStart {
            number: self.number.saturating_add(1),
            place: part.end(),
            room: self.room.saturating_sub(part.bytes.len()),
        }
    }
}
