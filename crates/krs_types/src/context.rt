use crate::{Caller, Serial};

/// A context of a client: one thread's view of the store, as a task's credentials hold it. keyrings(7), "Anchoring
/// keys".
#[derive(Drop)]
pub struct Context {
    pub client: u32,
    pub process: u32,
    pub caller: Caller,
    pub thread: Option<Serial>,
    pub session: Option<Serial>,
}

/// The keyrings of a uid: user-keyring(7), user-session-keyring(7).
#[derive(Clone, Copy, Debug)]
pub struct UidRings {
    pub user: Option<Serial>,
    pub session: Option<Serial>,
}
