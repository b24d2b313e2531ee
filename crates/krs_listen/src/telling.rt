//! Why the daemon doesn't serve, told on standard error with what to do.
ghost use Rattle.std.specs.{Prelude.{◌≡◌, IfOk, List, string_bytes, ℕ}, IoError.raw_os_error};
ghost use Rattle.krs_listen.specs.{Saying.heard, Telling.{cause_text, next_text, TellsFailure, TellsWhy}};

use crate::{Accepted, Voice};
use std::alloc::{AllocError, Global};
use std::io;
use std::io::Write;

/// What is told where the words are no text.
pub const NOT_TEXT: &str = "keyretaind: an argument isn't UTF-8: see keyretaind --help\n";

/// Tells why a path isn't bound, or something else can't be done, and what to do, as far as memory allows.
pub fn tell_cause<E: Write>(alloc: Global, errors: &mut Voice<E>, about: &str, cause: &io::Error)
    ensures { TellsWhy about.now (raw_os_error cause.now) (heard E.contents errors.old)
        (heard E.contents errors.new) }
{
    match text_of(alloc, about, cause) {
        Ok(text) => errors.say(text.as_str()),
        Err(_) => errors.lack(),
    }
}

/// Tells why an accept failed, where one did.
pub fn tell_accepted<E: Write>(
    alloc: Global,
    errors: &mut Voice<E>,
    accepted: Accepted,
    cause: &io::Error,
)
    ensures { TellsFailure accepted (heard E.contents errors.old) (heard E.contents errors.new) }
{
    match accepted {
        Accepted::All => (),
        Accepted::Failed => tell_cause(alloc, errors, "accept", cause),
    }
}

/// The lines that are told of a cause.
fn text_of(alloc: Global, about: &str, cause: &io::Error) -> Result<String, AllocError>
    ensures { IfOk result (λ text. (said : List ℕ)
        × (string_bytes text ≡ cause_text about.now said (next_text (raw_os_error cause.now)))) }
{
    let said = format!(in alloc; "{cause}")?;
    text_with(alloc, about, said.as_str(), next_for(cause))
}

/// The lines that are told, with what the system says, and what to do.
fn text_with(alloc: Global, about: &str, said: &str, next: &str) -> Result<String, AllocError>
    ensures { IfOk result (λ text. string_bytes text ≡ cause_text about.now said.now next.now) }
{
    format!(in alloc; "keyretaind: {about}: {said}{next}\n")
}

/// What to do about a cause: bind(2), accept(2), "ERRORS".
fn next_for(cause: &io::Error) -> &'static str
    ensures { result.now ≡ next_text (raw_os_error cause.now) }
{
    match cause.raw_os_error() {
        Some(2) => "\nkeyretaind: its folder isn't there: make it first",
        Some(13) => "\nkeyretaind: this user may make nothing in its folder: ls -ld",
        Some(24) => {
            "\nkeyretaind: it may open no more files: raise LimitNOFILE= of its unit, or ulimit -n"
        }
        Some(98) => "\nkeyretaind: another daemon may use it: remove the path if none does",
        _ => "",
    }
}
