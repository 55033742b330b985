use head::Head;
use ticket::Room;

/// What a message holds: its head, the room that its ticket needs, and the place behind the layout, where the carried
/// records begin.
#[derive(Clone, Copy)]
pub struct Contents {
    pub head: Head,
    pub needs: Room,
    pub layout_end: usize,
}
