ghost use Rattle.std.specs.Prelude.{[], ◌↔◌, ◌∷◌, ◌≡◌, ◌≢◌, ◌⊎◌, Contains, false, IfErr, Ok, true};
ghost use Rattle.std.specs.Io.{BufRead.strip_last, Buffered.{reader_buffer, reader_remaining}, KnownBytes.IsAtEnd};
ghost use Rattle.std.specs.{IoError.error_kind, declared.io.ErrorKind.TheVariants.OutOfMemory};
ghost use Rattle.krs_words.specs.Lines.{ReadsLines};

use crate::stop::Stop;
use std::io::{BufRead, BufReader, Error, ErrorKind, Read};

/// Reads the next line, of any length and any bytes, in place of what `line` held, which is wiped, without its newline;
/// whether there was one. An error of the reader that means out of memory counts as the client's own.
pub fn read_line<R: Read>(reader: &mut BufReader<R>, line: &mut Vec<u8>) -> Result<bool, Stop>
    ensures found { result ≡ Ok true → ReadsLines (reader_remaining R.remaining reader.old)
        (reader_remaining R.remaining reader.new) (line.new.items ∷ []) }
    ensures end { result ≡ Ok false → IsAtEnd (reader_remaining R.remaining reader.old) }
    ensures causes { IfErr result (λ stop. (stop ≡ Stop.Memory) ⊎ (stop ≡ Stop.Reading)) }
{
    line.fill(0);
    line.clear();
    match reader.read_until(b'\n', line) {
        Ok(0) => Ok(false),
        Ok(_) => {
            drop_newline(line);
            Ok(true)
        }
        Err(error) => Err(cause_of(&error)),
    }
}

/// Why a script stops whose reader failed so.
fn cause_of(error: &Error) -> Stop
    ensures memory { error_kind error.now ≡ OutOfMemory → result ≡ Stop.Memory }
    ensures other { error_kind error.now ≢ OutOfMemory → result ≡ Stop.Reading }
{
    match error.kind() {
        ErrorKind::OutOfMemory => Stop::Memory,
        _ => Stop::Reading,
    }
}

/// Whether the next line is read without asking for more bytes.
pub fn has_line_at_hand<R: Read>(reader: &BufReader<R>) -> bool
    ensures { result ≡ true ↔ Contains (reader_buffer reader.now) 10 }
{
    reader.buffer().contains(&b'\n')
}

fn drop_newline(line: &mut Vec<u8>)
    ensures { line.new.items ≡ strip_last 10 line.old.items }
{
    if line.last() == Some(&b'\n') {
        line.pop();
    }
}
