// How bytes that may be secret grow.
ghost use Rattle.std.specs.Prelude.{◌+◌, ◌≡◌, ◌≤◌, OnOk, vec_capacity, vec_len};

use krs_types::move_wiped;
use std::alloc::AllocError;

/// Makes room for so many more bytes. Where there isn't any, the bytes move to a block that has it, at least twice as
/// large as theirs, which is wiped.
pub(crate) fn make_room(bytes: &mut Vec<u8>, more: usize) -> Result<(), AllocError>
    ensures bytes { bytes.new.items ≡ bytes.old.items }
    ensures room { OnOk result (vec_len bytes.new + more ≤ vec_capacity bytes.new) }
{
    if more > bytes.capacity() - bytes.len() {
        let alloc = *bytes.allocator();
        let whole = bytes.len().saturating_add(more);
        move_wiped(alloc, bytes, whole.max(bytes.capacity().saturating_mul(2)));
    }
    if more > bytes.capacity() - bytes.len() {
        return Err(AllocError);
    }
    Ok(())
}
