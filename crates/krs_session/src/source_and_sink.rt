//! The two ends of a connection, as a session meets them.
ghost use Rattle.std.specs.Prelude.{[], ◌++◌, ◌+◌, ◌<◌, ◌≡◌, ◌≤◌, IfOk, length, List, OnErr, OnOk, take, ℕ};

/// An end of a connection failed.
#[derive(Clone, Copy, Debug, PartialEq, Eq)]
pub struct Failed;

/// Where a session reads. It tells its bytes, and counts.
pub trait Source {
    // From the first state to the second these bytes were given. A socket tells nothing.
    ghost gave: { Self → List ℕ → Self → Type 0 };

    // How many reads into room there were, and how many of them gave no bytes; how many reads failed.
    ghost reads: { Self → ℕ };

    ghost empties: { Self → ℕ };

    ghost failures: { Self → ℕ };

    /// Fills the front of the room, and answers how many bytes that are.
    fn read(&mut self, room: &mut [u8]) -> Result<usize, Failed>
        requires reads { reads self.old < u64.MAX }
        requires empties { empties self.old < u64.MAX }
        requires failures { failures self.old < u64.MAX }
        ensures within { IfOk result (λ n. n ≤ length room.old) }
        ensures gave { IfOk result (λ n. gave self.old (take n room.new) self.new) }
        ensures none { OnErr result (gave self.old [] self.new) }

        ensures counted { 0 < length room.old → reads self.new ≡ reads self.old + 1 }
        ensures no_room { length room.old ≡ 0 → reads self.new ≡ reads self.old }

        ensures empty { IfOk result
            (λ n. n ≡ 0 → 0 < length room.old → empties self.new ≡ empties self.old + 1) }
        ensures not_empty { IfOk result (λ n. 0 < n → empties self.new ≡ empties self.old) }
        ensures not_empty_room { length room.old ≡ 0 → empties self.new ≡ empties self.old }
        ensures not_empty_err { OnErr result (empties self.new ≡ empties self.old) }

        ensures good { OnOk result (failures self.new ≡ failures self.old) }
        ensures failed { OnErr result (failures self.new ≡ failures self.old + 1) };

    ghost starts: { (r : Self) → gave r [] r };

    ghost joins: { (a b c : Self) (xs ys : List ℕ) → gave a xs b → gave b ys c → gave a (xs ++ ys) c };
}

/// Where a session writes. It tells its bytes, and counts.
pub trait Sink {
    // From the first state to the second these bytes were taken. A socket tells nothing.
    ghost took: { Self → List ℕ → Self → Type 0 };

    // How many writes failed, or took none of a piece that isn't empty.
    ghost failures: { Self → ℕ };

    /// Takes the front of the piece, and answers how many bytes that are.
    fn write(&mut self, piece: &[u8]) -> Result<usize, Failed>
        requires { failures self.old < u64.MAX }
        ensures within { IfOk result (λ n. n ≤ length piece.now) }
        ensures took { IfOk result (λ n. took self.old (take n piece.now) self.new) }
        ensures none { OnErr result (took self.old [] self.new) }

        ensures good { IfOk result (λ n. 0 < n → failures self.new ≡ failures self.old) }
        ensures no_piece { length piece.now ≡ 0 → OnOk result (failures self.new ≡ failures self.old) }
        ensures took_none { IfOk result
            (λ n. n ≡ 0 → 0 < length piece.now → failures self.new ≡ failures self.old + 1) }
        ensures failed { OnErr result (failures self.new ≡ failures self.old + 1) };

    ghost starts: { (w : Self) → took w [] w };

    ghost joins: { (a b c : Self) (xs ys : List ℕ) → took a xs b → took b ys c → took a (xs ++ ys) c };
}
