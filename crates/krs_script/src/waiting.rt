ghost use Rattle.std.specs.{Prelude.{[], ◌≡◌, Contains, IfErr, OnErr, OnOk}, Io.Buffered.reader_buffer};
ghost use Rattle.krs_words.specs.Writing.{Prints, WritesFront};

use krs_words::{Stop, has_line_at_hand, write_out};
use std::io::{BufReader, Read, Write};

/// How many lines are read at most: profile, limits.
pub(crate) const MOST_LINES: u32 = 16_777_216;

/// How many bytes are read at once.
pub(crate) const READ_AHEAD: usize = 65_536;

/// Writes what waits, unless the next line can be read without asking the reader for more: then nothing waits any more.
pub(crate) fn write_before_waiting<R: Read, W: Write>(
    reader: &BufReader<R>,
    writer: &mut W,
    pending: &mut Vec<u8>,
) -> Result<(), Stop>
    ensures ok { OnOk result (Prints (W.contents writer.old) pending.old.items
        (W.contents writer.new) pending.new.items []) }
    ensures failed { OnErr result (WritesFront (W.contents writer.old) (W.contents writer.new)
        pending.old.items) }
    ensures waits { ¬ Contains (reader_buffer reader.now) 10 → pending.new.items ≡ [] }
    ensures causes { IfErr result (λ stop. stop ≡ Stop.Printing) }
{
    if has_line_at_hand(reader) {
        return Ok(());
    }
    write_out(writer, pending)
}
