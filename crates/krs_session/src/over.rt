ghost use Rattle.std.specs.Prelude.{◌≡◌};
ghost use Rattle.krs_session.specs.Over.{over_empties, over_end, over_failures, over_reads};

use crate::{Failed, Sink, Source};
use std::io::{Read, Write};

/// An end of a connection over a reader or a writer of std.
#[derive(Drop)]
pub struct Over<E> {
    end: E,
    reads: u64,
    empties: u64,
    failures: u64,
}

impl<E> Over<E> {
    pub fn new(end: E) -> Over<E>
        ensures end { over_end result ≡ end }
        ensures reads { over_reads result ≡ 0 }
        ensures empties { over_empties result ≡ 0 }
        ensures failures { over_failures result ≡ 0 }
    {
        Over {
            end,
            reads: 0,
            empties: 0,
            failures: 0,
        }
    }

    /// Gives the reader or the writer back.
    pub fn into_inner(self) -> E
        ensures { result ≡ over_end self }
    {
        let Over {
            end,
            reads: _,
            empties: _,
            failures: _,
        } = self;
        end
    }
}

impl<E: Read> Source for Over<E> {
    ghost use Rattle.std.specs.Io.KnownBytes.{Consumes};
    ghost use Rattle.std.proofs.KnownBytes.{Consumes-nil, Consumes-trans};

    ghost gave = { λ a bytes b. Consumes (E.remaining (over_end a)) (E.remaining (over_end b)) bytes };

    ghost reads = { over_reads };

    ghost empties = { over_empties };

    ghost failures = { over_failures };

    ghost starts = { λ a. Consumes-nil (E.remaining (over_end a)) };

    ghost joins = { λ a b c xs ys p q. Consumes-trans (E.remaining (over_end a))
        (E.remaining (over_end b)) (E.remaining (over_end c)) xs ys p q };

    fn read(&mut self, room: &mut [u8]) -> Result<usize, Failed> {
        if !room.is_empty() {
            self.reads += 1;
        }
        match self.end.read(room) {
            Ok(n) => {
                if n == 0 && !room.is_empty() {
                    self.empties += 1;
                }
                Ok(n)
            }
            Err(_) => {
                self.failures += 1;
                Err(Failed)
            }
        }
    }
}

impl<E: Write> Sink for Over<E> {
    ghost use Rattle.std.specs.Io.KnownBytes.{Appends};
    ghost use Rattle.std.proofs.KnownBytes.{Appends-nil, Appends-trans};

    ghost took = { λ a bytes b. Appends (E.contents (over_end a)) (E.contents (over_end b)) bytes };

    ghost failures = { over_failures };

    ghost starts = { λ a. Appends-nil (E.contents (over_end a)) };

    ghost joins = { λ a b c xs ys p q. Appends-trans (E.contents (over_end a))
        (E.contents (over_end b)) (E.contents (over_end c)) xs ys p q };

    fn write(&mut self, piece: &[u8]) -> Result<usize, Failed> {
        match self.end.write(piece) {
            Ok(n) => {
                if n == 0 && !piece.is_empty() {
                    self.failures += 1;
                }
                Ok(n)
            }
            Err(_) => {
                self.failures += 1;
                Err(Failed)
            }
        }
    }
}
