/// The uids or the gids of credentials(7), as they are in the user namespace that is served.
#[repr(C)]
#[derive(Clone, Copy)]
pub struct Ids {
    pub real: u32,
    pub effective: u32,
    pub saved: u32,
    /// That of the file system, by which access is judged.
    pub files: u32,
}

/// Who runs a process.
#[repr(C)]
#[derive(Clone, Copy)]
pub struct Process {
    pub uids: Ids,
    /// The real uid that has executed it: AT_UID of getauxval(3).
    pub starter: u32,
    /// Of its files in /proc, which are its effective uid's where it is dumpable: PR_SET_DUMPABLE of prctl(2).
    pub owner: u32,
    /// What stands for uids that have no number in the user namespace.
    pub unknown: u32,
    /// How many uids have one.
    pub mapped: u32,
    /// Its auxiliary vector was read.
    pub has_auxv: bool,
    /// It has more rights than who has executed it: AT_SECURE.
    pub is_secure: bool,
}

/// A session.
#[repr(C)]
#[derive(Clone, Copy)]
pub struct Session {
    /// Who has begun it, at that time.
    pub begun: Process,
    /// The same process now, where it is known and still in the session.
    pub beginner: Process,
    pub tag: u64,
    pub has_beginner: bool,
    /// It hasn't ended.
    pub is_there: bool,
}

/// A process that wants a context.
#[repr(C)]
#[derive(Clone, Copy)]
pub struct Arrival {
    pub process: Process,
    /// The session that it has begun, was given or came into before.
    pub held: Session,
    /// The one whose tag its limit is.
    pub tagged: Session,
    /// That of the nearest process above that is known.
    pub above: Session,
    /// Its soft limit RLIMIT_LOCKS.
    pub soft: u64,
    /// The uid as which it asks.
    pub uid: u32,
    /// That could be read.
    pub has_limit: bool,
    pub has_held: bool,
    pub has_tagged: bool,
    pub has_above: bool,
    /// Each process above could be looked at, up to that one or to the first.
    pub knows_above: bool,
    /// It has itself joined the session that it holds, and has executed nothing since.
    pub has_joined: bool,
    /// It revokes that session.
    pub revokes: bool,
}
