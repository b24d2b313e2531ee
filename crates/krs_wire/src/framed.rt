use krs_types::Ask;

/// The version of frames without a tag.
pub(crate) const UNTAGGED: u16 = 1;

/// The version of frames with a tag.
pub(crate) const TAGGED: u16 = 2;

/// The least and the greatest length of an ask's frame, which counts the bytes behind it.
pub(crate) const MIN_LENGTH: usize = 8;

pub(crate) const MAX_LENGTH: usize = 65536;

/// What a whole good frame of a client says. A frame of version 2 has a tag, which its reply repeats, and one of
/// version 1 has none.
#[derive(Drop)]
pub struct Framed {
    pub ask: Ask,
    pub tag: Option<u64>,
}
