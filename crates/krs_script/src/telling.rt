ghost use Rattle.std.specs.Prelude.{[], ◌++◌, ◌≡◌, codes, flat_map, get_or, IfErr, IfOk, if◌then◌else◌, is_some, List};
ghost use Rattle.std.specs.{Prelude.{map, Ok, OnOk, ℕ}, Char.Escape.escape_ascii};
ghost use Rattle.krs_words.specs.{Saying.{heard, Says}, Words.words_of};
ghost use Rattle.krs_commands.specs.Command.{command_of, row_of};
ghost use Rattle.krs_script.specs.Telling.{cause_text, hinted_refusal, hinted_text, no_command_text, quoted};
ghost use Rattle.krs_script.specs.Telling.{reason_text, refusal_text, stop_text};

use crate::hint::{call_hint, hint_of};
use crate::reading::Place;
use krs_commands::{is_command, parse};
use krs_words::{NoCommand, Stop, Voice, words};
use std::alloc::{AllocError, Global};
use std::ascii::escape_default;
use std::io::Write;

/// How many bytes of a word are quoted at most.
const QUOTED: usize = 64;

/// Tells those who look at standard error why a script stopped, at which line, and what to do, as far as memory and the
/// writer allow. Of one that came to its end nothing is told.
pub fn tell<E: Write>(
    alloc: Global,
    errors: &mut Voice<E>,
    place: &Place,
    stopped: Result<(), Stop>,
)
    ensures exact { IfErr stopped (λ stop. (how : List ℕ) × Says (heard E.contents errors.old)
        (heard E.contents errors.new) (stop_text place.now.number place.now.line.items stop how)) }
    ensures ended { stopped ≡ Ok tt → errors.new ≡ errors.old }
{
    match stopped {
        Ok(()) => (),
        Err(cause) => tell_cause(alloc, errors, place, cause),
    }
}

/// Tells why a script stopped.
fn tell_cause<E: Write>(alloc: Global, errors: &mut Voice<E>, place: &Place, cause: Stop)
    ensures { (how : List ℕ) × Says (heard E.contents errors.old) (heard E.contents errors.new)
        (stop_text place.now.number place.now.line.items cause how) }
{
    match text_of(alloc, place, cause) {
        Ok(text) => errors.tell(text.as_slice()),
        Err(_) => errors.lack(),
    }
}

/// What is told, with a hint.
fn text_of(alloc: Global, place: &Place, cause: Stop) -> Result<Vec<u8>, AllocError>
    ensures { IfOk result (λ text. (how : List ℕ)
        × (text.items ≡ stop_text place.now.number place.now.line.items cause how)) }
{
    let hint = hint_of(alloc, place.line.as_slice(), cause)?;
    text_with(alloc, place, cause, hint.as_slice())
}

/// What is told, with this hint.
#[tactic(auto, unfolding(crate::specs::Telling::hinted_text))]
fn text_with(alloc: Global, place: &Place, cause: Stop, hint: &[u8]) -> Result<Vec<u8>, AllocError>
    ensures { IfOk result (λ text. text.items
        ≡ hinted_text place.now.number place.now.line.items cause hint.now) }
{
    let number = place.number;
    let mut text = format!(in alloc; "keyretain: line {number}: ")?.into_bytes();
    push_cause(alloc, &mut text, place.line.as_slice(), cause)?;
    text.extend_from_slice(hint)?;
    text.push(b'\n')?;
    Ok(text)
}

/// Why a script stopped at this line.
#[tactic(auto, unfolding(crate::specs::Telling::cause_text))]
fn push_cause(alloc: Global, text: &mut Vec<u8>, line: &[u8], cause: Stop) -> Result<(), AllocError>
    ensures { OnOk result (text.new.items ≡ text.old.items ++ cause_text cause line.now) }
{
    match cause {
        Stop::Usage => push_usage(alloc, text, line),
        Stop::Memory => text.extend_from_slice(b"out of memory"),
        Stop::Reading => text.extend_from_slice(b"cannot be read"),
        Stop::TooLong => text.extend_from_slice(b"is the last that a script may have"),
        Stop::Printing => text.extend_from_slice(b"standard output cannot be written"),
        Stop::Connection => text.extend_from_slice(b"the connection failed"),
    }
}

/// Why the words of a line are no command here.
fn push_usage(alloc: Global, text: &mut Vec<u8>, line: &[u8]) -> Result<(), AllocError>
    ensures { OnOk result (text.new.items ≡ text.old.items ++ no_command_text (words_of line.now)) }
{
    let words = words(alloc, line)?;
    push_reason(alloc, text, words.as_slice())
}

/// What is told of the words of a single call that are no command, with a hint.
pub fn no_command(alloc: Global, words: &[&[u8]]) -> Result<Vec<u8>, AllocError>
    ensures { IfOk result (λ text. (how : List ℕ)
        × (text.items ≡ refusal_text (map (λ word. word.now) words.now) how)) }
{
    let hint = call_hint(alloc, words)?;
    no_command_with(alloc, words, hint.as_slice())
}

/// The same with this hint.
#[tactic(auto, unfolding(crate::specs::Telling::hinted_refusal))]
fn no_command_with(alloc: Global, words: &[&[u8]], hint: &[u8]) -> Result<Vec<u8>, AllocError>
    ensures { IfOk result (λ text. text.items ≡ hinted_refusal (map (λ word. word.now) words.now) hint.now) }
{
    let mut text = Vec::from_slice(alloc, b"keyretain: ")?;
    push_reason(alloc, &mut text, words)?;
    text.extend_from_slice(hint)?;
    text.push(b'\n')?;
    Ok(text)
}

/// The first word, or the empty one.
pub(crate) fn first_of<'a>(words: &[&'a [u8]]) -> &'a [u8]
    ensures { result.now ≡ get_or (map (λ word. word.now) words.now) 0 [] }
{
    match words.first() {
        Some(word) => word,
        None => b"",
    }
}

/// Why these words are no command here.
#[tactic(auto, unfolding(crate::specs::Telling::no_command_text, crate::specs::Telling::reason_text))]
fn push_reason(alloc: Global, text: &mut Vec<u8>, words: &[&[u8]]) -> Result<(), AllocError>
    ensures { OnOk result (text.new.items
        ≡ text.old.items ++ no_command_text (map (λ word. word.now) words.now)) }
{
    let first = first_of(words);
    let is_elsewhere = is_one(alloc, words)?;
    text.extend_from_slice(reason_of(first, is_elsewhere))?;
    push_quoted(text, first)
}

/// Whether these words are a command.
pub(crate) fn is_one(alloc: Global, words: &[&[u8]]) -> Result<bool, AllocError>
    ensures { IfOk result (λ is. is ≡ is_some (command_of (map (λ word. word.now) words.now))) }
{
    match parse(alloc, words) {
        Ok(command) => {
            command.let_go();
            Ok(true)
        }
        Err(NoCommand::Usage) => Ok(false),
        Err(NoCommand::Memory) => Err(AllocError),
    }
}

/// What stands before the first word, where the words are a command elsewhere or are none.
fn reason_of(word: &[u8], is_elsewhere: bool) -> &'static [u8]
    ensures { result.now ≡ (if is_elsewhere then codes "no command here: "
        else if is_some (row_of word.now) then codes "not as it is used: "
        else codes "no such command: ") }
{
    if is_elsewhere {
        b"no command here: "
    } else if is_command(word) {
        b"not as it is used: "
    } else {
        b"no such command: "
    }
}

/// A word as it is quoted: the first of its bytes, each that isn't printable as an escape, so that it does no harm to a
/// terminal or a log.
#[tactic(auto, unfolding(crate::specs::Telling::quoted, crate::specs::Telling::most_quoted))]
pub fn push_quoted(text: &mut Vec<u8>, word: &[u8]) -> Result<(), AllocError>
    ensures { OnOk result (text.new.items ≡ text.old.items ++ quoted word.now) }
{
    if word.len() <= QUOTED {
        return push_all_escaped(text, word);
    }
    let front = &word[..QUOTED];
    push_all_escaped(text, front)?;
    text.extend_from_slice(b"...")
}

/// Bytes as Rust's `escape_default` writes them.
fn push_all_escaped(text: &mut Vec<u8>, bytes: &[u8]) -> Result<(), AllocError>
    ensures { OnOk result (text.new.items ≡ text.old.items ++ flat_map escape_ascii bytes.now) }
{
    for byte in bytes {
        push_escaped(text, *byte)?;
    }
    Ok(())
}

/// A byte as Rust's `escape_default` writes it.
fn push_escaped(text: &mut Vec<u8>, byte: u8) -> Result<(), AllocError>
    ensures { OnOk result (text.new.items ≡ text.old.items ++ escape_ascii byte) }
{
    for shown in escape_default(byte) {
        text.push(shown)?;
    }
    Ok(())
}
