ghost use Rattle.std.specs.Prelude.{◌≡◌};
ghost use Rattle.ticket.specs.Rooms.{largest, room_of};

/// Numbers of fields, of their texts' bytes, of carried records and of their bodies' bytes: what a ticket needs, or
/// for what there is room.
#[derive(Clone, Copy)]
pub struct Room {
    pub fields: usize,
    pub texts: usize,
    pub carried: usize,
    pub bodies: usize,
}

impl Room {
    /// The most that a reader has room for.
    pub fn largest() -> Room
        ensures { result ≡ largest }
    {
        Room {
            fields: 200,
            texts: 7000,
            carried: 8,
            bodies: 4000,
        }
    }

    /// This room, of nothing more than the largest.
    pub fn capped(self) -> Room
        ensures { result ≡ room_of self }
    {
        let largest = Room::largest();
        Room {
            fields: self.fields.min(largest.fields),
            texts: self.texts.min(largest.texts),
            carried: self.carried.min(largest.carried),
            bodies: self.bodies.min(largest.bodies),
        }
    }
}
