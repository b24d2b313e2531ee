ghost use Rattle.std.specs.Prelude.{◌≡◌};
ghost use Rattle.krs_words.specs.declared.no_command.NoCommand.TheVariants.{Memory};

use std::alloc::{AllocError, AllocFailed};

/// Why words give no command.
#[derive(Clone, Copy, Debug, PartialEq, Eq)]
pub enum NoCommand {
    /// They are no command, or not the words that it takes.
    Usage,
    /// A growth was refused: out of memory.
    Memory,
}

impl From<AllocError> for NoCommand {
    ghost from_gives = { λ _ cause. cause ≡ Memory };

    fn from(_: AllocError) -> NoCommand {
        NoCommand::Memory
    }
}

impl<T: Drop> From<AllocFailed<T>> for NoCommand {
    ghost from_gives = { λ _ cause. cause ≡ Memory };

    fn from(_: AllocFailed<T>) -> NoCommand {
        NoCommand::Memory
    }
}
