ghost use Rattle.std.specs.Prelude.{[], ◌+◌, ◌∷◌, ◌≡◌, ◌⊎◌, false, IfErr, min, Ok, true};
ghost use Rattle.std.specs.Io.{Buffered.reader_remaining, KnownBytes.IsAtEnd};
ghost use Rattle.krs_words.specs.Lines.{ReadsLines};

use crate::waiting::READ_AHEAD;
use krs_types::wipe;
use krs_words::{Stop, read_line};
use std::alloc::Global;
use std::io::{BufReader, Read};

/// How far the lines of a script were read. The line is wiped where it is let go.
pub struct Place {
    /// The number of the line that was read last, from 1.
    pub number: u32,
    pub line: Vec<u8>,
}

impl Drop for Place {
    fn drop(self) {
        let Place { number: _, line } = self;
        wipe(line);
    }
}

impl Place {
    /// Before the first line, with room for a long one: a line that moves leaves a copy behind.
    pub fn start(alloc: Global) -> Place
        ensures number { result.number ≡ 0 }
        ensures line { result.line.items ≡ [] }
    {
        let mut line = Vec::new(alloc);
        let _ = line.reserve(READ_AHEAD);
        Place { number: 0, line }
    }

    /// Reads the next line in place of the one before; whether there was one.
    pub fn read_next<R: Read>(&mut self, reader: &mut BufReader<R>) -> Result<bool, Stop>
        ensures found { result ≡ Ok true → ReadsLines (reader_remaining R.remaining reader.old)
            (reader_remaining R.remaining reader.new) (self.new.line.items ∷ []) }
        ensures end { result ≡ Ok false → IsAtEnd (reader_remaining R.remaining reader.old) }
        ensures causes { IfErr result (λ stop. (stop ≡ Stop.Memory) ⊎ (stop ≡ Stop.Reading)) }
        ensures number { self.new.number ≡ min (self.old.number + 1) 4294967295 }
    {
        self.number = self.number.saturating_add(1);
        read_line(reader, &mut self.line)
    }
}
