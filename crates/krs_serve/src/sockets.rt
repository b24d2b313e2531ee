//! What the system gives. `Env`, `Files` and `Net` are asked for here alone.
use crate::{AtDesk, Paths};
use krs_listen::{Options, StreamAcceptor};
use std::env::{Args, Env};
use std::fs::Files;
use std::net::Net;
use std::os::unix::net::{UnixListener, UnixStream};
use std::{env, fs, io};

/// The program's words, and the system's paths, at which sockets listen.
#[derive(Drop)]
pub struct SystemPaths<'r, R> {
    rt: &'r R,
}

impl<'r, R: AllocGlobal + Env + Files + Net> SystemPaths<'r, R> {
    pub fn new(rt: &'r R) -> SystemPaths<'r, R> {
        SystemPaths { rt }
    }
}

impl<'r, R: AllocGlobal + Env + Files + Net> Paths for SystemPaths<'r, R> {
    type Stream = UnixStream;

    type Acceptor = StreamAcceptor<UnixListener, UnixStream>;

    type Bound = &'r R;

    ghost told = { λ _ _. Unit {0} };

    ghost at = { λ _ _. Unit {0} };

    ghost removes = { λ _ _. Unit {0} };

    fn words(&self) -> io::Result<Args> {
        env::args(self.rt)
    }

    fn bind<N: AtDesk>(
        self,
        options: &Options,
    ) -> io::Result<(StreamAcceptor<UnixListener, UnixStream>, &'r R)> {
        let listener = UnixListener::bind(self.rt, options.path())?;
        Ok((StreamAcceptor::new(listener), self.rt))
    }

    fn remove(bound: &'r R, options: &Options) {
        let _ = fs::remove_file(bound, options.path());
    }
}
