ghost use Rattle.std.specs.{Prelude.{◌*◌, ◌+◌, ◌==◌, ◌≡◌, ◌≤◌, length}, List.list_any};
ghost use Rattle.krs_screen.specs.Claim.{are_groups, is_group, is_own, is_void, may_name, some_nobody, voided};
ghost use Rattle.krs_screen.specs.Front.{le32};

use crate::numbers::{put_u32, u32_in};

/// Stands for no uid, no gid and no group.
const NOBODY: u32 = 4_294_967_295;

/// Whom the kernel has named: unix(7), SO_PEERCRED. `unknown` is what it says for ids that have no number here.
#[repr(C)]
#[derive(Clone, Copy)]
pub struct Peer {
    pub uid: u32,
    pub gid: u32,
    pub unknown: u32,
    pub is_trusted: bool,
}

/// Whether a number is among these.
fn has(numbers: &[u32], number: u32) -> bool
    ensures { result ≡ list_any (λ n. n == number) numbers.now }
{
    numbers.iter().any(|n| *n == number)
}

#[tactic(auto, unfolding(crate::specs::Claim::is_group))]
fn is_group(peer: &Peer, groups: &[u32], gid: u32) -> bool
    ensures { result ≡ is_group peer.now groups.now gid }
{
    gid != peer.unknown && (gid == peer.gid || has(groups, gid))
}

fn are_groups(peer: &Peer, groups: &[u32], bytes: &[u8], at: usize, count: usize) -> bool
    requires { at + 4 * count ≤ length bytes.now }
    ensures { result ≡ are_groups peer.now groups.now bytes.now at count }
{
    let mut own = true;
    for k in 0..count {
        own = own && is_group(peer, groups, u32_in(bytes, at + 4 * k));
    }
    own
}

/// Whether a HELLO whose uid stands at a place names its peer.
#[tactic(auto, unfolding(crate::specs::Claim::is_own))]
fn is_own(peer: &Peer, groups: &[u32], bytes: &[u8], at: usize, count: usize) -> bool
    requires { at + 12 + 4 * count ≤ length bytes.now }
    ensures { result ≡ is_own peer.now groups.now bytes.now at count }
{
    u32_in(bytes, at) == peer.uid
        && is_group(peer, groups, u32_in(bytes, at + 4))
        && are_groups(peer, groups, bytes, at + 12, count)
}

/// Whether its peer may make it.
pub(crate) fn may_name(peer: &Peer, groups: &[u32], bytes: &[u8], at: usize, count: usize) -> bool
    requires { at + 12 + 4 * count ≤ length bytes.now }
    ensures { result ≡ may_name peer.now groups.now bytes.now at count }
{
    peer.is_trusted || is_own(peer, groups, bytes, at, count)
}

fn some_nobody(bytes: &[u8], at: usize, count: usize) -> bool
    requires { at + 4 * count ≤ length bytes.now }
    ensures { result ≡ some_nobody bytes.now at count }
{
    let mut some = false;
    for k in 0..count {
        some = some || u32_in(bytes, at + 4 * k) == NOBODY;
    }
    some
}

/// Whether it names nobody, so that the daemon refuses it whoever asks.
#[tactic(auto, unfolding(crate::specs::Claim::is_void))]
pub(crate) fn is_void(bytes: &[u8], at: usize, count: usize) -> bool
    requires { at + 12 + 4 * count ≤ length bytes.now }
    ensures { result ≡ is_void bytes.now at count }
{
    u32_in(bytes, at) == NOBODY
        || u32_in(bytes, at + 4) == NOBODY
        || some_nobody(bytes, at + 12, count)
}

/// Makes it name nobody.
#[tactic(auto, unfolding(crate::specs::Claim::voided))]
pub(crate) fn make_void(bytes: &mut [u8], at: usize)
    requires { at + 4 ≤ length bytes.old }
    ensures { bytes.new ≡ voided bytes.old at }
{
    put_u32(bytes, at, NOBODY);
}
