// A save is told.

ghost use Rattle.std.specs.Prelude.{◌≡◌};
ghost use Rattle.mscp_c.specs.Saving.{length_told, room_after, save_code};

use crate::status::{DONE, SMALL};

/// Tells how many bytes there are, and writes them to the front of a room, or nothing where they don't fit.
pub(crate) fn tell_saved(room: &mut [u8], length: &mut usize, bytes: &[u8]) -> i32
    ensures code { result ≡ save_code bytes.now room.old }
    ensures told { room.new ≡ room_after bytes.now room.old }
    ensures count { length.new ≡ length_told bytes.now }
{
    *length = bytes.len();
    if room.len() < bytes.len() {
        return SMALL;
    }
    room[..bytes.len()].copy_from_slice(bytes);
    DONE
}
