/// How many links a walk goes along from a head, or from an attached keyring, so that the keyrings of so many levels
/// are entered. The kernel's KEYRING_SEARCH_MAX_DEPTH is 6, the last of these levels, of which the head is level 0:
/// profile, search depth.
pub const SEARCH_DEPTH: u8 = 7;

/// A keyring can't be linked that begins a chain of so many links of nested keyrings: profile, nesting depth.
pub const NESTING_DEPTH: u32 = 6;
