ghost use Rattle.std.specs.Prelude.{◌≡◌, ◌-◌, ◌^◌, min};
ghost use Rattle.message_writer.specs.Messages.{LengthOfMessage, PartsAreMessage, message_length};

use ticket::Room;

fn length_of(needs: Room) -> usize
    ensures { result ≡ min (message_length needs) (2 ^ 64 - 1) }
{
    let layout = needs.fields.saturating_mul(13).saturating_add(needs.texts);
    let carried = needs
        .carried
        .saturating_mul(12)
        .saturating_add(needs.bodies);
    layout.saturating_add(carried).saturating_add(73)
}

// the largest number, no Option: it can't fail, and no lawful ticket is so long
/// The length of the message of a ticket that needs so much room. It is `usize::MAX` where it would be larger; no
/// lawful ticket is so long.
pub fn message_length(needs: Room) -> usize
    ensures value { result ≡ min (message_length needs) (2 ^ 64 - 1) }
    ensures length { LengthOfMessage needs result }
    ensures parts { PartsAreMessage needs result }
{
    length_of(needs)
}
