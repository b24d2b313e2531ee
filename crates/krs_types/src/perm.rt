ghost use Rattle.std.specs.Prelude.{◌≡◌};
ghost use Rattle.krs_types.specs.Perm.{granted, perm_of};

use crate::{Caller, Errno, Rights};
use bitflags::Flags;
use std::marker::Model;

/// The bits that a mask may have: six rights for each of its four bytes.
const ALL: u32 = 0x3f3f_3f3f;

/// The permission mask of a key: from the top a byte each for its possessor, its user, its group and all others.
/// keyctl(2), KEYCTL_SETPERM.
#[derive(Clone, Copy, Debug, PartialEq, Eq)]
pub struct Perm {
    mask: u32,
}

impl Model for Perm {
    ghost use Rattle.std.specs.Prelude.{◌≡◌, bit_and, ℕ};

    ghost Value = { ℕ };

    ghost view = { λ p. p.mask };

    ghost invariant = { λ p. bit_and p.mask 0x3f3f_3f3f ≡ p.mask };

    ghost inverse = { λ n. record { mask = n } };
}

impl Perm {
    /// The mask of a key that ADD makes: all for its possessor, VIEW for its user. Profile, masks of new keys.
    pub const OF_KEY: Perm = Perm { mask: 0x3f01_0000 };

    /// The mask of a logon key that ADD makes: all but READ for its possessor, VIEW for its user.
    pub const OF_LOGON: Perm = Perm { mask: 0x3d01_0000 };

    /// The mask of the keyrings of a uid: all but SETATTR for its possessor, all for its user.
    pub const OF_UID: Perm = Perm { mask: 0x1f3f_0000 };

    /// The mask of a session keyring that JOIN makes without a name: all for its possessor, VIEW and READ for its
    /// user.
    pub const OF_SESSION: Perm = Perm { mask: 0x3f03_0000 };

    /// The mask of a session keyring that JOIN makes by a name: all for its possessor, VIEW, READ and LINK for its
    /// user.
    pub const OF_NAMED_SESSION: Perm = Perm { mask: 0x3f13_0000 };

    /// The mask of these bits: EINVAL where one is outside 3f3f3f3f. Profile, mask bits.
    pub fn from_u32(mask: u32) -> Result<Perm, Errno>
        ensures { result ≡ perm_of mask }
    {
        if mask & ALL != mask {
            return Err(Errno::EINVAL);
        }
        Ok(Perm { mask })
    }

    pub fn bits(self) -> u32
        ensures { result ≡ self }
    {
        self.mask
    }

    /// What a caller may do with a key of this mask, uid and gid: the possessor's byte where it possesses the key, and
    /// exactly one of the other three. keyrings(7), "Possession" and "Access rights"; profile, group byte counts
    /// alone.
    pub fn grants(self, caller: &Caller, uid: u32, gid: u32, possessed: bool) -> Rights
        ensures { result.0 ≡ granted self uid gid caller.now possessed }
    {
        let [possessor, user, group, other] = self.mask.to_be_bytes();
        let class = if uid == caller.uid {
            user
        } else if caller.is_of_group(gid) {
            group
        } else {
            other
        };
        let own = if possessed { possessor } else { 0 };
        Rights::from_bits_retain(own | class)
    }
}
