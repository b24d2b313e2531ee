ghost use Rattle.std.specs.Prelude.{◌*◌, ◌+◌, ◌<◌, ◌≡◌, ◌≤◌, ◌⊎◌, false, length, min, true};
ghost use Rattle.krs_screen.specs.Claim.{voided};
ghost use Rattle.krs_screen.specs.{Front.{front_of, is_hello}, Step.{ask_step, claim_at, hello_step, Safe}};

use crate::claim::{Peer, is_void, make_void, may_name};
use crate::counting::{Screen, ask_more, refuse_next};
use crate::front::{Front, front_of};
use crate::numbers::u32_in;

/// A whole HELLO whose uid stands at a place.
#[tactic(auto, unfolding(crate::specs::Step::hello_step), using(crate::proofs::Voiding::void_is_void))]
fn take_hello(
    screen: &mut Screen,
    peer: &Peer,
    groups: &[u32],
    bytes: &mut [u8],
    at: usize,
    count: usize,
) -> usize
    requires few { count ≤ 32 }
    requires place { at ≤ 20 }
    requires there { at + 12 + 4 * count ≤ length bytes.old }
    ensures exact { (result, (bytes.new, screen.new)) ≡ hello_step peer.now groups.now screen.old bytes.old at count }
    ensures safe { 0 < result → Safe peer.now groups.now bytes.new (Front.Hello at count) }
    ensures stays { (bytes.new ≡ bytes.old) ⊎ (bytes.new ≡ voided bytes.old at) }
    ensures fault { result ≡ 0 → screen.new.ask_fault ≡ true }
{
    if !is_void(bytes, at, count) {
        if may_name(peer, groups, bytes, at, count) {
            screen.greeted = true;
        } else if screen.count < 64 {
            refuse_next(screen);
            make_void(bytes, at);
        } else {
            screen.ask_fault = true;
            return 0;
        }
    }
    ask_more(screen, 0);
    at + 12 + 4 * count
}

/// Whom a HELLO names.
#[repr(C)]
#[derive(Clone, Copy)]
pub struct Claim {
    pub uid: u32,
    pub gid: u32,
    pub count: u32,
}

/// Whether a whole HELLO that is judged stands at the front, so that its peer's groups are wanted; and whom it names.
pub fn find_claim(bytes: &[u8], claim: &mut Claim) -> bool
    ensures found { result ≡ is_hello (front_of bytes.now) }
    ensures claim { claim.new ≡ claim_at claim.old bytes.now (front_of bytes.now) }
{
    match front_of(bytes) {
        Front::Hello(at, count) => {
            *claim = Claim {
                uid: u32_in(bytes, at),
                gid: u32_in(bytes, at + 4),
                count: count as u32,
            };
            true
        }
        _ => false,
    }
}

/// Judges the front of what a client has sent, and answers how many of these bytes may be passed on. A HELLO that its
/// peer may not make is made void. What then waits for more is shorter than the longest HELLO that is judged.
#[tactic(auto, unfolding(crate::specs::Step::ask_step), using(crate::proofs::Voiding::le32_voided, crate::proofs::Staying::hello_stays, crate::proofs::Staying::crowd_stays))]
pub fn ask(screen: &mut Screen, peer: &Peer, groups: &[u32], bytes: &mut [u8]) -> usize
    ensures exact { (result, (bytes.new, screen.new)) ≡ ask_step peer.now groups.now screen.old bytes.old }
    ensures safe { screen.old.ask_left ≡ 0 → 0 < result → Safe peer.now groups.now bytes.new (front_of bytes.new) }
    ensures short { result ≡ 0 → screen.new.ask_fault ≡ false → length bytes.old < 160 }
{
    if screen.ask_fault {
        return 0;
    }
    if screen.ask_left > 0 {
        let passed = (screen.ask_left as usize).min(bytes.len());
        screen.ask_left -= passed as u32;
        return passed;
    }
    match front_of(bytes) {
        Front::Part => 0,
        Front::Fault => {
            screen.ask_fault = true;
            0
        }
        Front::Other(frame) => {
            ask_more(screen, (frame - 12) as u32);
            12
        }
        Front::Crowd(frame, at) => {
            make_void(bytes, at);
            ask_more(screen, (frame - (at + 12)) as u32);
            at + 12
        }
        Front::Hello(at, count) => take_hello(screen, peer, groups, bytes, at, count),
    }
}
