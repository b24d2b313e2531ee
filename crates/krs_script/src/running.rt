ghost use Rattle.std.specs.{Prelude.{◌+◌, ◌<◌, ◌^◌, ◌≡◌, ◌≤◌, Ok}, Io.Buffered.reader_remaining};
ghost use Rattle.krs_script.specs.Running.{Ends, ObeysLine, Runs};

use crate::carries::Carries;
use crate::ending::finish;
use crate::reading::Place;
use crate::waiting::{MOST_LINES, READ_AHEAD, write_before_waiting};
use krs_commands::parse;
use krs_words::{Stop, is_comment, print_output, words};
use std::alloc::Global;
use std::io::{BufReader, Read, Write};

/// Has a client carry out the lines of a reader, and prints a line for each to the writer: the script's status, and why
/// it stopped. What was printed is written out before a line is waited for. `place` then is where the script stands.
pub fn run_by<C: Carries, R: Read + Drop, W: Write>(
    alloc: Global,
    client: &mut C,
    reader: R,
    writer: &mut W,
    place: &mut Place,
) -> (u8, Result<(), Stop>)
    requires { C.asked (C.state client.old) ≡ 0 }
    ensures ends { Ends C.acts C.breaks (R.remaining reader) (W.contents writer.old) (W.contents writer.new)
        (C.state client.old) (C.state client.new) (C.refused (C.state client.new)) result.0 }
    ensures whole { result.0 ≡ 0 → result.1 ≡ Ok tt }
    ensures usage { result.0 ≡ 2 → result.1 ≡ Err Stop.Usage }
    ensures kept { C.kept client.new ≡ C.kept client.old }
{
    let mut pending = Vec::new(alloc);
    let stopped = run(alloc, client, reader, writer, &mut pending, place);
    let status = finish(writer, &mut pending, stopped, client.is_refused());
    (status, stopped)
}

fn run<C: Carries, R: Read + Drop, W: Write>(
    alloc: Global,
    client: &mut C,
    reader: R,
    writer: &mut W,
    pending: &mut Vec<u8>,
    place: &mut Place,
) -> Result<(), Stop>
    requires { C.asked (C.state client.old) ≡ 0 }
    ensures runs { Runs C.acts C.breaks (R.remaining reader) (C.state client.old) (C.state client.new)
        (W.contents writer.old) pending.old.items (W.contents writer.new) pending.new.items result }
    ensures kept { C.kept client.new ≡ C.kept client.old }
{
    match BufReader::with_capacity(alloc, READ_AHEAD, reader) {
        Ok(mut reader) => run_lines(alloc, client, &mut reader, writer, pending, place),
        Err(_) => Err(Stop::Memory),
    }
}

fn run_lines<C: Carries, R: Read, W: Write>(
    alloc: Global,
    client: &mut C,
    reader: &mut BufReader<R>,
    writer: &mut W,
    pending: &mut Vec<u8>,
    place: &mut Place,
) -> Result<(), Stop>
    requires { C.asked (C.state client.old) ≡ 0 }
    ensures runs { Runs C.acts C.breaks (reader_remaining R.remaining reader.old)
        (C.state client.old) (C.state client.new) (W.contents writer.old) pending.old.items
        (W.contents writer.new) pending.new.items result }
    ensures kept { C.kept client.new ≡ C.kept client.old }
{
    for _ in 0..MOST_LINES {
        write_before_waiting(reader, writer, pending)?;
        if !place.read_next(reader)? {
            return Ok(());
        }
        obey(alloc, client, place.line.as_slice(), writer, pending)?;
    }
    Err(Stop::TooLong)
}

/// Has the command of a line carried out, and prints what it comes to.
fn obey<C: Carries, W: Write>(
    alloc: Global,
    client: &mut C,
    line: &[u8],
    writer: &mut W,
    pending: &mut Vec<u8>,
) -> Result<(), Stop>
    requires { C.asked (C.state client.old) + 2 < 2 ^ 64 }
    ensures obeyed { ObeysLine C.acts C.breaks (C.state client.old) line.now (C.state client.new)
        (W.contents writer.old) pending.old.items (W.contents writer.new) pending.new.items result }
    ensures few { C.asked (C.state client.new) ≤ C.asked (C.state client.old) + 2 }
    ensures kept { C.kept client.new ≡ C.kept client.old }
{
    if is_comment(line) {
        return Ok(());
    }
    let words = words(alloc, line)?;
    if words.is_empty() {
        return Ok(());
    }
    let command = parse(alloc, words.as_slice())?;
    let output = client.act(alloc, command)?;
    print_output(alloc, writer, pending, &output)
}
