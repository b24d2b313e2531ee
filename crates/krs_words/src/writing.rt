ghost use Rattle.std.specs.Prelude.{[], ◌++◌, ◌∷◌, ◌≡◌, ◌⊎◌, Err, IfErr, IfOk, OnErr, OnOk};
ghost use Rattle.std.specs.Io.KnownBytes.{Appends, Keeps};
ghost use Rattle.krs_words.specs.{Printing.shown, Writing.{Prints, WritesFront, WritesSome}};

use crate::output::Output;
use crate::printing::output_line;
use crate::stop::Stop;
use krs_types::{Blob, move_wiped};
use std::alloc::Global;
use std::io::{ErrorKind, Write};

/// How much waits to be written before it is written in any case.
const MOST_PENDING: usize = 65_536;

/// Prints the line of what a command came to, which waits in `pending` to be written.
pub fn print_output<W: Write>(
    alloc: Global,
    writer: &mut W,
    pending: &mut Vec<u8>,
    output: &Output,
) -> Result<(), Stop>
    ensures ok { OnOk result (Prints (W.contents writer.old) pending.old.items
        (W.contents writer.new) pending.new.items (shown output.now ++ 10 ∷ [])) }
    ensures memory { result ≡ Err Stop.Memory → Prints (W.contents writer.old) pending.old.items
        (W.contents writer.new) pending.new.items [] }
    ensures printing { result ≡ Err Stop.Printing → WritesFront (W.contents writer.old)
        (W.contents writer.new) (pending.old.items ++ (shown output.now ++ 10 ∷ [])) }
    ensures causes { IfErr result (λ stop. (stop ≡ Stop.Memory) ⊎ (stop ≡ Stop.Printing)) }
{
    let line = Blob::new(output_line(alloc, output)?);
    let whole = pending.len().saturating_add(line.as_slice().len());
    if whole > pending.capacity() {
        move_wiped(alloc, pending, whole.max(MOST_PENDING));
    }
    pending.extend_from_slice(line.as_slice())?;
    if pending.len() < MOST_PENDING {
        return Ok(());
    }
    write_out(writer, pending)
}

/// Writes all that waits to be written, and wipes it. Where that fails, what is left of it is lost.
pub fn write_out<W: Write>(writer: &mut W, pending: &mut Vec<u8>) -> Result<(), Stop>
    ensures ok { OnOk result (Appends (W.contents writer.old) (W.contents writer.new)
        pending.old.items) }
    ensures failed { OnErr result (WritesFront (W.contents writer.old) (W.contents writer.new)
        pending.old.items) }
    ensures empty { pending.new.items ≡ [] }
    ensures causes { IfErr result (λ stop. stop ≡ Stop.Printing) }
{
    let written = write_text(writer, pending.as_slice());
    pending.fill(0);
    pending.clear();
    written
}

/// Writes bytes and has them out. Nothing is asked of the writer for none.
pub fn write_text<W: Write>(writer: &mut W, bytes: &[u8]) -> Result<(), Stop>
    ensures ok { OnOk result (Appends (W.contents writer.old) (W.contents writer.new) bytes.now) }
    ensures failed { OnErr result (WritesFront (W.contents writer.old) (W.contents writer.new)
        bytes.now) }
    ensures causes { IfErr result (λ stop. stop ≡ Stop.Printing) }
{
    if bytes.is_empty() {
        return Ok(());
    }
    write_whole(writer, bytes)?;
    match writer.flush() {
        Ok(()) => Ok(()),
        Err(_) => Err(Stop::Printing),
    }
}

/// Writes bytes, in as many pieces as the writer takes them.
fn write_whole<W: Write>(writer: &mut W, bytes: &[u8]) -> Result<(), Stop>
    ensures ok { OnOk result (Appends (W.contents writer.old) (W.contents writer.new) bytes.now) }
    ensures failed { OnErr result (WritesFront (W.contents writer.old) (W.contents writer.new)
        bytes.now) }
    ensures causes { IfErr result (λ stop. stop ≡ Stop.Printing) }
{
    let mut rest = bytes;
    for _ in 0..u64::MAX {
        if rest.is_empty() {
            return Ok(());
        }
        rest = write_piece(writer, rest)?;
    }
    Err(Stop::Printing)
}

/// Writes the front of these bytes, which aren't empty, as far as the writer takes it at once; answers the rest.
fn write_piece<'a, W: Write>(writer: &mut W, bytes: &'a [u8]) -> Result<&'a [u8], Stop>
    ensures ok { IfOk result (λ rest. WritesSome (W.contents writer.old) (W.contents writer.new)
        bytes.now rest.now) }
    ensures failed { OnErr result (Keeps (W.contents writer.old) (W.contents writer.new)) }
    ensures causes { IfErr result (λ stop. stop ≡ Stop.Printing) }
{
    match writer.write(bytes) {
        Ok(taken) if taken > 0 => Ok(&bytes[taken..]),
        Err(error) if error.kind() == ErrorKind::Interrupted => Ok(bytes),
        _ => Err(Stop::Printing),
    }
}
