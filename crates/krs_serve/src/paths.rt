//! What the daemon is given by the system. The daemon is proved for all that gives so. It knows no words but these, and
//! binds the path that they name.
ghost use Rattle.std.specs.Prelude.{IfOk, List, string_bytes, ℕ};
ghost use Rattle.krs_listen.specs.declared.choice.Choice.TheVariants.{Serve};
ghost use Rattle.krs_serve.specs.{AtDesk.BeginsAt, Told.{IsAsTold, Words}};

use crate::{Acceptor, AtDesk};
use krs_listen::Options;
use std::env::Args;
use std::io;
use std::io::{Read, Write};

/// The words of a program, and what binds the path that they name, once, and takes it away.
pub trait Paths: Drop {
    type Stream: Read + Write + Drop + Send;

    type Acceptor: Acceptor<Self::Stream>;

    /// What takes the path away again.
    type Bound: Drop;

    // These are the words that the program was told. Of the system's that isn't known.
    ghost told: { Self → Words → Type 0 };

    // It accepts at this path. Of a socket that isn't known.
    ghost at: { Self.Acceptor → List ℕ → Type 0 };

    // It takes this path away. Of the system that isn't known.
    ghost removes: { Self.Bound → List ℕ → Type 0 };

    /// The words, the first of which is the program's name.
    fn words(&self) -> io::Result<Args>
        ensures { told self.now result };

    /// Binds the path that the words name, for those who are to sit at this desk. Nothing was accepted there yet.
    fn bind<N: AtDesk>(self, options: &Options) -> io::Result<(Self::Acceptor, Self::Bound)>
        requires told { IsAsTold (told self) (Serve options.now) }
        ensures there { IfOk result (λ b. at b.0 (string_bytes options.now.path)) }
        ensures here { IfOk result (λ b. BeginsAt Self.Acceptor.serves Self.Acceptor.accepted
            Self.Acceptor.failures b.0 N.desk) }
        ensures removes { IfOk result (λ b. removes b.1 (string_bytes options.now.path)) };

    /// Takes the path away that was bound.
    fn remove(bound: Self::Bound, options: &Options)
        requires removes { removes bound (string_bytes options.now.path) };
}
