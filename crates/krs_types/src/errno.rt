ghost use Rattle.std.specs.Prelude.{◌==◌, ◌≡◌, find};
ghost use Rattle.krs_types.specs.Errno.{errnos, name_of, number_of};

/// Why an ask is refused: the names and numbers of errno(3) on Linux.
#[derive(Clone, Copy, Debug, PartialEq, Eq)]
pub enum Errno {
    /// The name begins with a dot, which is kept for the system; or the keyring is closed.
    EPERM,
    /// The keyring does not link that key.
    ENOENT,
    /// The context is not the client's.
    ESRCH,
    /// The queue is not the client's.
    EBADF,
    /// No record waits in the queue.
    EAGAIN,
    /// A growth was refused: out of memory.
    ENOMEM,
    /// The right that is needed is not granted.
    EACCES,
    /// The queue watches that key already.
    EBUSY,
    /// The destination of a move has such a link already, or the keyring is closed already.
    EEXIST,
    /// There is no such type of key.
    ENODEV,
    /// The key is no keyring.
    ENOTDIR,
    /// An argument is outside what is allowed.
    EINVAL,
    /// The table is full: links of a keyring, or queues.
    ENFILE,
    /// No serial, context number or queue number is left.
    ENOSPC,
    /// The link would close a cycle.
    EDEADLK,
    /// The keyring that is to be linked is nested too deep.
    ELOOP,
    /// The queue does not watch that key.
    EBADSLT,
    /// The type of the key does not do this.
    EOPNOTSUPP,
    /// The first record does not fit the room.
    ENOBUFS,
    /// There is no such key.
    ENOKEY,
    /// The key's time is over.
    EKEYEXPIRED,
    /// The key was revoked.
    EKEYREVOKED,
}

/// All errors, by rising number.
const ERRNOS: [Errno; 22] = [
    Errno::EPERM,
    Errno::ENOENT,
    Errno::ESRCH,
    Errno::EBADF,
    Errno::EAGAIN,
    Errno::ENOMEM,
    Errno::EACCES,
    Errno::EBUSY,
    Errno::EEXIST,
    Errno::ENODEV,
    Errno::ENOTDIR,
    Errno::EINVAL,
    Errno::ENFILE,
    Errno::ENOSPC,
    Errno::EDEADLK,
    Errno::ELOOP,
    Errno::EBADSLT,
    Errno::EOPNOTSUPP,
    Errno::ENOBUFS,
    Errno::ENOKEY,
    Errno::EKEYEXPIRED,
    Errno::EKEYREVOKED,
];

impl Errno {
    /// The number that Linux gives the error on x86-64.
    pub fn number(self) -> u32
        ensures { result ≡ number_of self }
    {
        match self {
            Errno::EPERM => 1,
            Errno::ENOENT => 2,
            Errno::ESRCH => 3,
            Errno::EBADF => 9,
            Errno::EAGAIN => 11,
            Errno::ENOMEM => 12,
            Errno::EACCES => 13,
            Errno::EBUSY => 16,
            Errno::EEXIST => 17,
            Errno::ENODEV => 19,
            Errno::ENOTDIR => 20,
            Errno::EINVAL => 22,
            Errno::ENFILE => 23,
            Errno::ENOSPC => 28,
            Errno::EDEADLK => 35,
            Errno::ELOOP => 40,
            Errno::EBADSLT => 57,
            Errno::EOPNOTSUPP => 95,
            Errno::ENOBUFS => 105,
            Errno::ENOKEY => 126,
            Errno::EKEYEXPIRED => 127,
            Errno::EKEYREVOKED => 128,
        }
    }

    /// The error's name, as the manual spells it.
    pub fn name(self) -> &'static str
        ensures { result.now ≡ name_of self }
    {
        match self {
            Errno::EPERM => "EPERM",
            Errno::ENOENT => "ENOENT",
            Errno::ESRCH => "ESRCH",
            Errno::EBADF => "EBADF",
            Errno::EAGAIN => "EAGAIN",
            Errno::ENOMEM => "ENOMEM",
            Errno::EACCES => "EACCES",
            Errno::EBUSY => "EBUSY",
            Errno::EEXIST => "EEXIST",
            Errno::ENODEV => "ENODEV",
            Errno::ENOTDIR => "ENOTDIR",
            Errno::EINVAL => "EINVAL",
            Errno::ENFILE => "ENFILE",
            Errno::ENOSPC => "ENOSPC",
            Errno::EDEADLK => "EDEADLK",
            Errno::ELOOP => "ELOOP",
            Errno::EBADSLT => "EBADSLT",
            Errno::EOPNOTSUPP => "EOPNOTSUPP",
            Errno::ENOBUFS => "ENOBUFS",
            Errno::ENOKEY => "ENOKEY",
            Errno::EKEYEXPIRED => "EKEYEXPIRED",
            Errno::EKEYREVOKED => "EKEYREVOKED",
        }
    }

    /// The error of a number, where it has one.
    pub fn from_number(number: u32) -> Option<Errno>
        ensures { result ≡ find (λ e. number_of e == number) errnos }
    {
        ERRNOS.iter().copied().find(|e| e.number() == number)
    }
}
