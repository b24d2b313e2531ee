ghost use Rattle.std.specs.Prelude.{◌≡◌};
ghost use Rattle.krs_model.specs.Asks.Watching.{watch_id_of};

use krs_types::Errno;

/// What WATCH is asked with: an id of 0 to 255 sets a watch, -1 ends one, and others are EINVAL.
/// uapi linux/keyctl.h, KEYCTL_WATCH_KEY; Documentation/security/keys/core.rst.
pub fn watch_id(id: i32) -> Result<Option<u8>, Errno>
    ensures { result ≡ watch_id_of id }
{
    match id {
        0..=255 => Ok(Some(id as u8)),
        -1 => Ok(None),
        _ => Err(Errno::EINVAL),
    }
}
