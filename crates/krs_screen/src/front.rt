ghost use Rattle.std.specs.Prelude.{◌+◌, ◌<◌, ◌==◌, ◌≡◌, ◌≤◌, if◌then◌else◌, length};
ghost use Rattle.krs_screen.specs.Front.{front_by, front_of, hello_front, is_known, le16, le32, Within};

use crate::numbers::{u16_in, u32_in};

/// The front of a client's bytes: the beginning of a frame, or none that passes; the head of a frame of so many bytes
/// that is no HELLO; one of a HELLO of too many groups whose uid stands at a place; or a whole HELLO.
#[derive(Debug, Clone, Copy)]
pub enum Front {
    Part,
    Fault,
    Other(usize),
    Crowd(usize, usize),
    Hello(usize, usize),
}

#[tactic(auto, using(crate::proofs::Knowing::known_is))]
fn is_known(op: u16) -> bool
    ensures { result ≡ is_known op }
{
    op < 12 || op == 15 || op == 21 || op == 29 || op == 30 || op == 32 || (op > 255 && op < 268)
}

/// A HELLO whose uid stands at a place, in a frame of so many bytes.
#[tactic(auto, unfolding(crate::specs::Front::hello_front))]
fn hello_front(frame: usize, at: usize, bytes: &[u8]) -> Front
    requires place { at ≤ 20 }
    requires long { frame ≤ 65540 }
    ensures exact { result ≡ hello_front frame at bytes.now }
    ensures within { Within result (length bytes.now) }
    ensures short { result ≡ Front.Part → length bytes.now < 160 }
{
    if frame < at + 12 {
        return Front::Fault;
    }
    if bytes.len() < at + 12 {
        return Front::Part;
    }
    let count = u32_in(bytes, at + 8) as usize;
    if frame != at + 12 + 4 * count {
        return Front::Fault;
    }
    if 32 < count {
        return Front::Crowd(frame, at);
    }
    if bytes.len() < frame {
        return Front::Part;
    }
    Front::Hello(at, count)
}

#[tactic(auto, unfolding(crate::specs::Front::front_by))]
fn front_by(n: usize, version: u16, op: u16, bytes: &[u8]) -> Front
    requires least { 8 ≤ n }
    requires most { n ≤ 65536 }
    requires there { 12 ≤ length bytes.now }
    ensures exact { result ≡ front_by n version op bytes.now }
    ensures within { Within result (length bytes.now) }
    ensures short { result ≡ Front.Part → length bytes.now < 160 }
{
    if !(version == 1 || (version == 2 && n > 15)) {
        return Front::Fault;
    }
    if !is_known(op) {
        return Front::Fault;
    }
    if op != 256 {
        return Front::Other(4 + n);
    }
    let at = if version == 1 { 12 } else { 20 };
    hello_front(4 + n, at, bytes)
}

#[tactic(auto, unfolding(crate::specs::Front::front_of))]
pub(crate) fn front_of(bytes: &[u8]) -> Front
    ensures exact { result ≡ front_of bytes.now }
    ensures within { Within result (length bytes.now) }
    ensures short { result ≡ Front.Part → length bytes.now < 160 }
{
    if bytes.len() < 4 {
        return Front::Part;
    }
    let n = u32_in(bytes, 0) as usize;
    if n < 8 || 65_536 < n {
        return Front::Fault;
    }
    if bytes.len() < 12 {
        return Front::Part;
    }
    front_by(n, u16_in(bytes, 4), u16_in(bytes, 6), bytes)
}
