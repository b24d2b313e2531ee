ghost use Rattle.std.specs.Prelude.{◌≡◌};
ghost use Rattle.krs_words.specs.{Stop.stop_of, declared.stop.Stop.TheVariants.Memory};

use crate::no_command::NoCommand;
use std::alloc::{AllocError, AllocFailed};

/// Why a script stops before the end of its lines.
#[derive(Clone, Copy, Debug, PartialEq, Eq)]
pub enum Stop {
    /// A line is no command, or has not the words that its command takes.
    Usage,
    /// A growth was refused: out of memory.
    Memory,
    /// No line could be read.
    Reading,
    /// As many lines were read as a script has at most.
    TooLong,
    /// What was printed could not be written.
    Printing,
    /// Over a socket: the connection failed, or ended before a reply, or gave what is no reply.
    Connection,
}

impl From<NoCommand> for Stop {
    ghost from_gives = { λ cause stop. stop ≡ stop_of cause };

    fn from(cause: NoCommand) -> Stop {
        match cause {
            NoCommand::Usage => Stop::Usage,
            NoCommand::Memory => Stop::Memory,
        }
    }
}

impl From<AllocError> for Stop {
    ghost from_gives = { λ _ stop. stop ≡ Memory };

    fn from(_: AllocError) -> Stop {
        Stop::Memory
    }
}

impl<T: Drop> From<AllocFailed<T>> for Stop {
    ghost from_gives = { λ _ stop. stop ≡ Memory };

    fn from(_: AllocFailed<T>) -> Stop {
        Stop::Memory
    }
}
