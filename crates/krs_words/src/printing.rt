ghost use Rattle.std.specs.Prelude.{[], ◌++◌, ◌∷◌, ◌≡◌, IfOk, OnOk};
ghost use Rattle.krs_words.specs.Printing.{is_printable, serials_in, shown, shown_bytes, shown_refusal, shown_reply};
ghost use Rattle.krs_words.specs.Printing.{shown_serials, with_serial};

use crate::output::Output;
use krs_types::{Answer, Blob, Errno, Reply};
use std::alloc::{AllocError, Global};
use std::fmt::Write;

/// The line that is printed, with its newline.
pub fn output_line(alloc: Global, output: &Output) -> Result<Vec<u8>, AllocError>
    ensures { IfOk result (λ line. line.items ≡ shown output.now ++ 10 ∷ []) }
{
    let mut line = match output {
        Output::Reply(reply) => reply_text(alloc, reply)?,
        Output::Serials(bytes) => serials_text(alloc, bytes.as_slice())?,
        Output::Records(bytes) => hex::encode(alloc, bytes.as_slice())?.into_bytes(),
    };
    line.push(b'\n')?;
    Ok(line)
}

fn reply_text(alloc: Global, reply: &Reply) -> Result<Vec<u8>, AllocError>
    ensures { IfOk result (λ text. text.items ≡ shown_reply reply.now) }
{
    match reply {
        Ok(Answer::Nothing) => Vec::from_slice(alloc, b"ok"),
        Ok(Answer::Number(number)) => Ok(format!(in alloc; "{number}")?.into_bytes()),
        Ok(Answer::Bytes(bytes)) => bytes_text(alloc, bytes.as_slice()),
        Err(error) => refusal_text(alloc, *error),
    }
}

fn refusal_text(alloc: Global, error: Errno) -> Result<Vec<u8>, AllocError>
    ensures { IfOk result (λ text. text.items ≡ shown_refusal error) }
{
    let (number, name) = (error.number(), error.name());
    Ok(format!(in alloc; "error {number} {name}")?.into_bytes())
}

/// The serials that the bytes spell. Bytes at the end that are no whole serial are left out.
fn serials_text(alloc: Global, bytes: &[u8]) -> Result<Vec<u8>, AllocError>
    ensures { IfOk result (λ text. text.items ≡ shown_serials (serials_in bytes.now)) }
{
    let mut text = String::new(alloc);
    let mut left = bytes;
    'serials: while let [a, b, c, d, more @ ..] = left {
        push_serial(&mut text, u32::from_le_bytes([*a, *b, *c, *d]))?;
        left = more;
    }
    Ok(text.into_bytes())
}

/// One more serial, behind a space where it is not the first.
fn push_serial(text: &mut String, serial: u32) -> Result<(), AllocError>
    ensures { OnOk result (text.new.bytes.items ≡ with_serial text.old.bytes.items serial) }
{
    if !text.is_empty() {
        text.push(' ')?;
    }
    write!(text, "{serial}")
}

/// With room for what ends the line: text that moves leaves a copy behind.
fn bytes_text(alloc: Global, bytes: &[u8]) -> Result<Vec<u8>, AllocError>
    ensures { IfOk result (λ text. text.items ≡ shown_bytes bytes.now) }
{
    if is_printable(bytes) {
        let mut text = Vec::with_capacity(alloc, bytes.len().saturating_add(1))?;
        text.extend_from_slice(bytes)?;
        return Ok(text);
    }
    let digits = Blob::new(hex::encode(alloc, bytes)?.into_bytes());
    let size = digits.as_slice().len().saturating_add(6);
    let mut text = Vec::with_capacity(alloc, size)?;
    text.extend_from_slice(b":hex:")?;
    text.extend_from_slice(digits.as_slice())?;
    Ok(text)
}

fn is_printable(bytes: &[u8]) -> bool
    ensures { result ≡ is_printable bytes.now }
{
    bytes.iter().all(|byte| (b' '..=b'~').contains(byte))
}
