//! What to do next, told behind why a line or a single call is no command.
ghost use Rattle.std.specs.Prelude.{[], ◌≡◌, get_or, IfOk, if◌then◌else◌, is_some, List, map, ℕ};
ghost use Rattle.krs_words.specs.Words.{words_of};
ghost use Rattle.krs_commands.specs.Command.{command_of, row_of};
ghost use Rattle.krs_script.specs.Telling.{call_hint, hint_text, line_hint, listed_text};

use crate::telling::{first_of, is_one, push_quoted};
use krs_commands::{first_misfit, is_command, usage_of};
use krs_words::{Stop, words};
use std::alloc::{AllocError, Global};

const LISTED: &[u8] = b"\nkeyretain: keyretain --help lists the commands";

const NO_MOMENT: &[u8] = b"\nkeyretain: over a socket the daemon's own clock counts";

const FITS_NO_FRAME: &[u8] =
    b"\nkeyretain: it fits no frame, which has 65536 bytes at most; a payload has 32767 at most";

const IN_SCRIPTS: &[u8] = b"\nkeyretain: it is for scripts: keyretain --socket PATH script";

const IS_GONE: &[u8] =
    b"\nkeyretain: a daemon that ended has lost all keys; begin anew, once it is started";

/// What to do where a script stopped at this line for this cause.
pub(crate) fn hint_of(alloc: Global, line: &[u8], cause: Stop) -> Result<Vec<u8>, AllocError>
    ensures { IfOk result (λ hint. (how : List ℕ) × (hint.items ≡ hint_text cause line.now how)) }
{
    match cause {
        Stop::Usage => line_hint_of(alloc, line),
        Stop::Connection => Vec::from_slice(alloc, IS_GONE),
        _ => Ok(Vec::new(alloc)),
    }
}

/// How the words of a line would be a command.
fn line_hint_of(alloc: Global, line: &[u8]) -> Result<Vec<u8>, AllocError>
    ensures { IfOk result (λ hint. (how : List ℕ) × (hint.items ≡ line_hint (words_of line.now) how)) }
{
    let words = words(alloc, line)?;
    line_hint(alloc, words.as_slice())
}

/// How these words of a line would be a command.
fn line_hint(alloc: Global, words: &[&[u8]]) -> Result<Vec<u8>, AllocError>
    ensures { IfOk result (λ hint. (how : List ℕ)
        × (hint.items ≡ line_hint (map (λ word. word.now) words.now) how)) }
{
    if is_one(alloc, words)? {
        return Vec::from_slice(alloc, elsewhere(first_of(words)));
    }
    if is_command(first_of(words)) {
        return usage(alloc, words);
    }
    Vec::from_slice(alloc, LISTED)
}

/// How the words of a single call would be a command.
pub(crate) fn call_hint(alloc: Global, words: &[&[u8]]) -> Result<Vec<u8>, AllocError>
    ensures { IfOk result (λ hint. (how : List ℕ)
        × (hint.items ≡ call_hint (map (λ word. word.now) words.now) how)) }
{
    if is_one(alloc, words)? {
        return Vec::from_slice(alloc, IN_SCRIPTS);
    }
    if is_command(first_of(words)) {
        return usage(alloc, words);
    }
    Vec::from_slice(alloc, LISTED)
}

/// How the command is used that has the first of these words, and which other isn't as it is used.
fn usage(alloc: Global, words: &[&[u8]]) -> Result<Vec<u8>, AllocError> {
    let mut text = Vec::from_slice(alloc, usage_of(first_of(words)))?;
    push_misfit(&mut text, words)?;
    Ok(text)
}

/// Why words of a line that are a command are none over a socket.
fn elsewhere(first: &[u8]) -> &'static [u8] {
    if first == b"moment".as_slice() {
        return NO_MOMENT;
    }
    FITS_NO_FRAME
}

/// Which word isn't what stands at its place, if one is.
fn push_misfit(text: &mut Vec<u8>, words: &[&[u8]]) -> Result<(), AllocError> {
    let Some(found) = first_misfit(words) else {
        return Ok(());
    };
    text.extend_from_slice(b"\nkeyretain: ")?;
    if let Some(word) = found.word {
        push_quoted(text, word)?;
        text.extend_from_slice(b" is none: ")?;
    }
    text.extend_from_slice(found.place)?;
    text.extend_from_slice(b" is ")?;
    text.extend_from_slice(found.wanted().as_bytes())
}
