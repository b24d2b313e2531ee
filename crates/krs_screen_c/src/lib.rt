//! krs_screen for C: `c/guard/krs_screen.h` declares it. A slice crosses as a pointer and a length. No call requires
//! anything but that these are good.
#![tactic(auto)]

ghost use Rattle.std.specs.Prelude.{◌<◌, ◌==◌, ◌≡◌, false, length, replicate};
ghost use Rattle.krs_screen.specs.{Front.{front_of, is_hello}, Step.{ask_step, claim_at, reply_step, Safe}};

use krs_screen::{Claim, Peer, Screen};

/// Whether a whole HELLO that is judged stands at the front, so that its peer's groups are wanted; and whom it names.
#[unsafe(no_mangle)]
pub extern "C" fn krs_screen_c_find_claim(bytes: &[u8], claim: &mut Claim) -> bool
    ensures found { result ≡ is_hello (front_of bytes.now) }
    ensures claim { claim.new ≡ claim_at claim.old bytes.now (front_of bytes.now) }
{
    krs_screen::find_claim(bytes, claim)
}

/// Judges the front of what a client has sent, and answers how many of these bytes may be passed on. A HELLO that its
/// peer may not make is made void. What then waits for more is shorter than the longest HELLO that is judged.
#[unsafe(no_mangle)]
pub extern "C" fn krs_screen_c_ask(
    screen: &mut Screen,
    peer: &Peer,
    groups: &[u32],
    bytes: &mut [u8],
) -> usize
    ensures exact { (result, (bytes.new, screen.new)) ≡ ask_step peer.now groups.now screen.old bytes.old }
    ensures safe { screen.old.ask_left ≡ 0 → 0 < result → Safe peer.now groups.now bytes.new (front_of bytes.new) }
    ensures short { result ≡ 0 → screen.new.ask_fault ≡ false → length bytes.old < 160 }
{
    krs_screen::ask(screen, peer, groups, bytes)
}

/// The same for bytes from the daemon: the status of a reply to a void HELLO becomes EPERM.
#[unsafe(no_mangle)]
pub extern "C" fn krs_screen_c_reply(screen: &mut Screen, bytes: &mut [u8]) -> usize
    ensures exact { (result, (bytes.new, screen.new)) ≡ reply_step screen.old bytes.old }
    ensures short { result ≡ 0 → screen.new.reply_fault ≡ false → length bytes.old < 8 }
{
    krs_screen::reply(screen, bytes)
}

/// Gives each field a number of its own, and one of the flags true, so that a test can compare the structures that the
/// header declares with these.
#[unsafe(no_mangle)]
pub extern "C" fn krs_screen_c_number_fields(
    screen: &mut Screen,
    peer: &mut Peer,
    claim: &mut Claim,
    flag: u32,
)
    ensures screen { screen.new ≡ record {
      asked = 1;
      answered = 2;
      refused = replicate 64 3;
      ask_left = 4;
      reply_left = 5;
      first = 6;
      count = 7;
      greeted = flag == 0;
      ask_fault = flag == 1;
      reply_fault = flag == 2;
    } }
    ensures peer { peer.new ≡ record { uid = 8; gid = 9; unknown = 10; is_trusted = flag == 3 } }
    ensures claim { claim.new ≡ record { uid = 11; gid = 12; count = 13 } }
{
    *screen = Screen {
        asked: 1,
        answered: 2,
        refused: [3; 64],
        ask_left: 4,
        reply_left: 5,
        first: 6,
        count: 7,
        greeted: flag == 0,
        ask_fault: flag == 1,
        reply_fault: flag == 2,
    };
    *peer = Peer {
        uid: 8,
        gid: 9,
        unknown: 10,
        is_trusted: flag == 3,
    };
    *claim = Claim {
        uid: 11,
        gid: 12,
        count: 13,
    };
}
