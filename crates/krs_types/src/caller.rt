ghost use Rattle.std.specs.{Prelude.{◌==◌, ◌≡◌, IfOk}, List.list_any};

use crate::Errno;
use std::alloc::{AllocError, Global};
use std::marker::Model;

/// How many groups a caller names at most: profile, limits.
const MAX_GROUPS: usize = 32;

/// A uid or gid that CHOWN leaves as it is: keyctl(2), KEYCTL_CHOWN.
pub const UNCHANGED: u32 = 4_294_967_295;

/// Stands for no uid and no gid.
const NO_ID: u32 = 4_294_967_295;

/// The supplementary groups of a caller.
#[derive(Drop)]
pub struct Groups {
    gids: Vec<u32>,
}

impl Model for Groups {
    ghost use Rattle.std.specs.Prelude.{List, ℕ};

    ghost Value = { List ℕ };

    ghost view = { λ g. g.gids.items };
}

impl Groups {
    pub fn new(gids: Vec<u32>) -> Self
        ensures { result ≡ gids.items }
    {
        Groups { gids }
    }

    pub fn as_slice(&self) -> &[u32]
        ensures { result.now ≡ self.now }
    {
        self.gids.as_slice()
    }

    pub fn copy(&self, alloc: Global) -> Result<Groups, AllocError>
        ensures { IfOk result (λ copy. copy ≡ self.now) }
    {
        Ok(Groups::new(Vec::from_slice(alloc, self.as_slice())?))
    }
}

/// Whom a client says that it is: credentials(7).
#[derive(Drop)]
pub struct Caller {
    pub uid: u32,
    pub gid: u32,
    pub groups: Groups,
}

impl Caller {
    ghost use Rattle.krs_types.specs.Caller.{caller_check, is_of_group};

    /// Whether a gid is the caller's, or one of its groups.
    pub fn is_of_group(&self, gid: u32) -> bool
        ensures { result ≡ is_of_group self.now gid }
    {
        gid == self.gid || has(self.groups.as_slice(), gid)
    }

    /// EINVAL where it names more than 32 groups, or 4294967295 as its uid, its gid or a group. Profile, limits;
    /// profile, believed caller.
    pub fn check(&self) -> Result<(), Errno>
        ensures { result ≡ caller_check self.now }
    {
        let groups = self.groups.as_slice();
        if groups.len() > MAX_GROUPS
            || self.uid == NO_ID
            || self.gid == NO_ID
            || has(groups, NO_ID)
        {
            return Err(Errno::EINVAL);
        }
        Ok(())
    }

    pub fn copy(&self, alloc: Global) -> Result<Caller, AllocError>
        ensures { IfOk result (λ copy. copy ≡ self.now) }
    {
        Ok(Caller {
            uid: self.uid,
            gid: self.gid,
            groups: self.groups.copy(alloc)?,
        })
    }
}

/// Whether a number is among these.
fn has(numbers: &[u32], number: u32) -> bool
    ensures { result ≡ list_any (λ n. n == number) numbers.now }
{
    numbers.iter().any(|n| *n == number)
}
