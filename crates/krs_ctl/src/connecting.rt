//! What is done over a connection, which is made first.

ghost use Rattle.std.specs.Prelude.{◌≡◌, ◌≢◌, codes, Err, IfOk, Ok, string_bytes, ℕ};
ghost use Rattle.std.specs.{IoError.error_kind, declared.io.ErrorKind.TheVariants.OutOfMemory};
ghost use Rattle.krs_words.specs.Saying.{heard, Says};
ghost use Rattle.krs_script.specs.Ending.{Says as Prints};
ghost use Rattle.krs_ctl.specs.{Connecting.connecting, Program.{CallsAt, RunsAt, SaysUnconnected}};
ghost use Rattle.krs_ctl.specs.Telling.{path_text, TellsCall, TellsEnd, TellsFailure, TellsOf, TellsOver};

use crate::advice::of_refused;
use crate::choice::Call;
use crate::place::Connects;
use crate::watched::{Front, Watched};
use krs_remote::{run_call, run_remote_at};
use krs_script::{NO_CONNECTION, OUT_OF_MEMORY, Place, push_quoted, say, tell};
use krs_words::{Stop, Voice};
use std::alloc::{AllocError, Global};
use std::io;
use std::io::{ErrorKind, Read, Write};

/// What is told of a connection that was made, and came to no reply.
const FAILED: &str =
    "the connection failed, or gave no reply; or standard output cannot be written";

/// What is told where the guard has no place for a client.
const NO_PLACE: &str =
    "keyretain-guard has no place left for this user: end other clients, or raise --per-uid";

/// What is told of a call that fits no frame.
const NO_FRAME: &str =
    "keyretain: it fits no frame, which has 65536 bytes at most; a payload has 32767 at most\n";

/// Why a call came to no reply.
#[derive(Drop)]
pub(crate) enum Failure {
    /// There was no connection.
    Unconnected(io::Error),
    /// The guard had no place for it.
    NoPlace,
    /// The connection failed, or gave no reply.
    Failed,
}

/// Runs the lines of a reader over a connection to the path: the script's status.
pub(crate) fn script_at<C: Connects, R: Read + Drop, W: Write, E: Write>(
    net: &mut C,
    alloc: Global,
    path: &str,
    input: R,
    output: &mut W,
    errors: &mut Voice<E>,
) -> u8
    ensures runs { RunsAt (connecting C.made C.failed C.closed C.Reader.remaining C.Writer.contents
        net.old net.new) path.now (R.remaining input) (W.contents output.old)
        (W.contents output.new) result }
    ensures told { TellsOver path.now result (heard E.contents errors.old) (heard E.contents errors.new) }
    ensures well { result ≡ 0 → heard E.contents errors.new ≡ heard E.contents errors.old }
{
    match net.connect(path) {
        Ok((from, mut to)) => {
            let mut place = Place::start(alloc);
            let mut from = Watched {
                end: from,
                front: Front::start(),
            };
            let (status, stopped) = run_remote_at(
                alloc, input, output, &mut from, &mut to, &mut place,
            );
            tell_stopped(alloc, errors, path, &from, &place, stopped);
            net.close(from.into_end(), to);
            status
        }
        Err(error) => {
            tell_cause(alloc, errors, path, &error);
            say_unconnected(output, &error)
        }
    }
}

/// Tells why a script over this connection to the path stopped, if it did.
fn tell_stopped<F, E: Write>(
    alloc: Global,
    errors: &mut Voice<E>,
    path: &str,
    from: &Watched<F>,
    place: &Place,
    stopped: Result<(), Stop>,
)
    ensures told { (status : ℕ) → (status ≡ 2 → stopped ≡ Err Stop.Usage)
        → TellsOver path.now status (heard E.contents errors.old) (heard E.contents errors.new) }
    ensures well { stopped ≡ Ok tt → heard E.contents errors.new ≡ heard E.contents errors.old }
{
    if stopped == Err(Stop::Connection) && from.is_turned_away() {
        tell_of(alloc, errors, path, NO_PLACE);
        return;
    }
    tell(alloc, errors, place, stopped);
}

/// Carries a single command out over a connection to its path: the status.
pub(crate) fn call_at<C: Connects, W: Write, E: Write>(
    net: &mut C,
    alloc: Global,
    call: Call,
    output: &mut W,
    errors: &mut Voice<E>,
) -> u8
    ensures calls { CallsAt (connecting C.made C.failed C.closed C.Reader.remaining C.Writer.contents
        net.old net.new) call (W.contents output.old) (W.contents output.new) result }
    ensures told { TellsCall call result (heard E.contents errors.old) (heard E.contents errors.new) }
{
    match net.connect(call.path.as_str()) {
        Ok((from, mut to)) => {
            let refused = of_refused(&call.caller, &call.command);
            let mut from = Watched {
                end: from,
                front: Front::start(),
            };
            let status = run_call(alloc, call.caller, call.command, output, &mut from, &mut to);
            let why = failure_of(&from);
            net.close(from.into_end(), to);
            tell_end(alloc, errors, call.path.as_str(), status, why, refused);
            status
        }
        Err(error) => {
            let status = say_unconnected(output, &error);
            let failure = Failure::Unconnected(error);
            tell_end(alloc, errors, call.path.as_str(), status, failure, "");
            call.command.let_go();
            status
        }
    }
}

/// Why a call over this connection came to no reply, where it did.
fn failure_of<F>(from: &Watched<F>) -> Failure {
    if from.is_turned_away() {
        return Failure::NoPlace;
    }
    Failure::Failed
}

/// Tells what there is to tell of a single call with this status.
#[tactic(auto, using(crate::proofs::TellingLemmas::tells_of_failure))]
fn tell_end<E: Write>(
    alloc: Global,
    errors: &mut Voice<E>,
    path: &str,
    status: u8,
    failure: Failure,
    refused: &str,
)
    ensures { TellsEnd path.now refused.now status (heard E.contents errors.old) (heard E.contents errors.new) }
{
    match status {
        1 => errors.say(refused),
        2 => errors.say(NO_FRAME),
        3 => tell_failure(alloc, errors, path, failure),
        _ => (),
    }
}

/// Tells why a single call came to no reply.
fn tell_failure<E: Write>(alloc: Global, errors: &mut Voice<E>, path: &str, failure: Failure)
    ensures { TellsFailure path.now failure (heard E.contents errors.old) (heard E.contents errors.new) }
{
    match failure {
        Failure::Unconnected(error) => tell_cause(alloc, errors, path, &error),
        Failure::NoPlace => tell_of(alloc, errors, path, NO_PLACE),
        Failure::Failed => tell_of(alloc, errors, path, FAILED),
    }
}

/// Tells why there is no connection, and what to do.
fn tell_cause<E: Write>(alloc: Global, errors: &mut Voice<E>, path: &str, error: &io::Error)
    ensures { TellsOf path.now (heard E.contents errors.old) (heard E.contents errors.new) }
{
    let next = next_for(error);
    match format!(in alloc; "{error}{next}") {
        Ok(cause) => tell_of(alloc, errors, path, cause.as_str()),
        Err(_) => errors.lack(),
    }
}

/// What to do where a connection can't be made: connect(2), "ERRORS".
fn next_for(error: &io::Error) -> &'static str {
    match error.raw_os_error() {
        Some(2) =>
            "\nkeyretain: start a daemon: systemctl --user start keyretaind, or keyretaind --socket PATH",
        Some(111) =>
            "\nkeyretain: its daemon has ended: remove the path, and start one: keyretaind --socket PATH",
        Some(13) =>
            "\nkeyretain: who may connect is told by the modes of the path and its folder: ls -ld",
        Some(_) => "",
        None => "\nkeyretain: a path has 107 bytes at most",
    }
}

/// Tells something of a path, as far as memory and the writer allow.
fn tell_of<E: Write>(alloc: Global, errors: &mut Voice<E>, path: &str, what: &str)
    ensures { Says (heard E.contents errors.old) (heard E.contents errors.new) (path_text path.now what.now) }
{
    match text_of(alloc, path, what) {
        Ok(text) => errors.tell(text.as_slice()),
        Err(_) => errors.lack(),
    }
}

/// The line that is told of a path.
fn text_of(alloc: Global, path: &str, what: &str) -> Result<Vec<u8>, AllocError>
    ensures { IfOk result (λ text. text.items ≡ path_text path.now what.now) }
{
    let mut text = Vec::from_slice(alloc, b"keyretain: ")?;
    push_quoted(&mut text, path.as_bytes())?;
    text.extend_from_slice(b": ")?;
    text.extend_from_slice(what.as_bytes())?;
    text.push(b'\n')?;
    Ok(text)
}

/// Says why there is no connection.
fn say_unconnected<W: Write>(output: &mut W, error: &io::Error) -> u8
    ensures says { SaysUnconnected (W.contents output.old) (W.contents output.new) result }
    ensures memory { error_kind error.now ≡ OutOfMemory
        → Prints (W.contents output.old) (W.contents output.new) (codes "error 12 ENOMEM\n") 1 result }
    ensures other { error_kind error.now ≢ OutOfMemory
        → Prints (W.contents output.old) (W.contents output.new) (codes "error: connection\n") 3 result }
{
    if error.kind() == ErrorKind::OutOfMemory {
        return say(output, OUT_OF_MEMORY, 1);
    }
    say(output, NO_CONNECTION, 3)
}
