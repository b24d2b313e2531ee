ghost use Rattle.std.specs.{Prelude.{◌++◌, ◌≡◌, Err, Ok, OnErr, OnOk}, Io.KnownBytes.Appends};
ghost use Rattle.krs_words.specs.Writing.{WritesFront};
ghost use Rattle.krs_script.specs.Ending.{Finishes, last_line, Says, status_of};

use krs_words::{Stop, write_out, write_text};
use std::io::Write;

/// What is printed where a line is no command.
pub const USAGE: &str = "usage\n";

/// What is printed where the client itself is out of memory.
pub const OUT_OF_MEMORY: &str = "error 12 ENOMEM\n";

/// What is printed where there is no connection, or it failed.
pub const NO_CONNECTION: &str = "error: connection\n";

/// Ends a script: what still waits is written, and the last line of one that stopped; the script's status. Of a writer
/// that failed nothing more is asked.
pub fn finish<W: Write>(
    writer: &mut W,
    pending: &mut Vec<u8>,
    stopped: Result<(), Stop>,
    refused: bool,
) -> u8
    ensures says { Finishes (W.contents writer.old) pending.old.items (W.contents writer.new)
        stopped refused result }
    ensures failed { stopped ≡ Err Stop.Printing → writer.new ≡ writer.old }
    ensures whole { result ≡ 0 → stopped ≡ Ok tt }
    ensures usage { result ≡ 2 → stopped ≡ Err Stop.Usage }
{
    let (status, last) = ending(stopped, refused);
    if let Err(Stop::Printing) = stopped {
        return status;
    }
    match write_last(writer, pending, last) {
        Ok(()) => status,
        Err(_) => 3,
    }
}

/// Writes what waits, and then a text.
fn write_last<W: Write>(writer: &mut W, pending: &mut Vec<u8>, last: &str) -> Result<(), Stop>
    ensures ok { OnOk result (Appends (W.contents writer.old) (W.contents writer.new)
        (pending.old.items ++ last.now)) }
    ensures failed { OnErr result (WritesFront (W.contents writer.old) (W.contents writer.new)
        (pending.old.items ++ last.now)) }
{
    write_out(writer, pending)?;
    write_text(writer, last.as_bytes())
}

/// The status of a script, and the last line of one that stopped.
fn ending(stopped: Result<(), Stop>, refused: bool) -> (u8, &'static str)
    ensures status { result.0 ≡ status_of stopped refused }
    ensures last { result.1.now ≡ last_line stopped }
{
    match stopped {
        Ok(()) if refused => (1, ""),
        Ok(()) => (0, ""),
        Err(Stop::Usage) => (2, USAGE),
        Err(Stop::Memory) => (1, OUT_OF_MEMORY),
        Err(Stop::Connection) => (3, NO_CONNECTION),
        Err(Stop::Reading | Stop::TooLong | Stop::Printing) => (3, ""),
    }
}

/// Says a text, with this status.
pub fn say<W: Write>(writer: &mut W, text: &str, status: u8) -> u8
    ensures { Says (W.contents writer.old) (W.contents writer.new) text.now status result }
{
    match write_text(writer, text.as_bytes()) {
        Ok(()) => status,
        Err(_) => 3,
    }
}
