//! Copying into a buffer of the caller.

ghost use Rattle.tc_ffi.specs.Calls.{Keeps, IsPlaced};

use tc_status::{NO_ROOM, OK};

/// Writes bytes at the front of a buffer if they fit, and their number in any case.
pub fn place(bytes: &[u8], buffer: &mut [u8], length: &mut usize) -> u32
    ensures placed { IsPlaced bytes.now buffer.old buffer.new length.new result }
    ensures kept { Keeps buffer.old buffer.new result }
{
    *length = bytes.len();
    if buffer.len() < bytes.len() {
        return NO_ROOM;
    }
    let (front, _) = buffer.split_at_mut(bytes.len());
    front.copy_from_slice(bytes);
    OK
}
