ghost use Rattle.std.specs.Prelude.{◌+◌, ◌≡◌, ◌≤◌, length};
ghost use Rattle.krs_screen.specs.Front.{le16, le32, with_le32};

use byteorder::{ByteOrder, LittleEndian};

#[tactic(auto, unfolding(crate::specs::Front::le16))]
pub(crate) fn u16_in(bytes: &[u8], at: usize) -> u16
    requires { at + 2 ≤ length bytes.now }
    ensures { result ≡ le16 bytes.now at }
{
    let (_, rest) = bytes.split_at(at);
    let (front, _) = rest.split_at(2);
    LittleEndian::read_u16(front)
}

#[tactic(auto, unfolding(crate::specs::Front::le32))]
pub(crate) fn u32_in(bytes: &[u8], at: usize) -> u32
    requires { at + 4 ≤ length bytes.now }
    ensures { result ≡ le32 bytes.now at }
{
    let (_, rest) = bytes.split_at(at);
    let (front, _) = rest.split_at(4);
    LittleEndian::read_u32(front)
}

pub(crate) fn put_u32(bytes: &mut [u8], at: usize, number: u32)
    requires { at + 4 ≤ length bytes.old }
    ensures { bytes.new ≡ with_le32 bytes.old at number }
{
    let (_, rest) = bytes.split_at_mut(at);
    let (place, _) = rest.split_at_mut(4);
    LittleEndian::write_u32(place, number);
}
