//! How bytes that may be secret are let go.
ghost use Rattle.std.specs.Prelude.{◌≡◌, All};

use std::alloc::Global;
use std::mem;

/// Lets go of bytes that are all zeros.
fn let_go(bytes: Vec<u8>)
    requires { All (λ b. b ≡ 0) bytes.items }
{
    drop(bytes);
}

/// Overwrites all bytes with zeros and gives their memory back, so that nothing is left to whoever is given it next.
pub fn wipe(bytes: Vec<u8>) {
    let mut bytes = bytes;
    bytes.fill(0);
    let_go(bytes);
}

/// Moves bytes to a block of their own with room for so many, and wipes the one in which they lay. Where there is no
/// memory for it, or the room is less than the bytes, they stay. A vector that grows by itself leaves its old block as
/// it was.
pub fn move_wiped(alloc: Global, bytes: &mut Vec<u8>, room: usize)
    ensures { bytes.new.items ≡ bytes.old.items }
{
    if room < bytes.len() {
        return;
    }
    let Ok(mut moved) = Vec::with_capacity(alloc, room) else {
        return;
    };
    if moved.extend_from_slice(bytes).is_ok() {
        wipe(mem::replace(bytes, moved));
    }
}
