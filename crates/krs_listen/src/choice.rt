ghost use Rattle.std.specs.Prelude.{◌≡◌, false, IfErr, IfOk, List, map, OnErr, Option, option_map, Some, string_bytes};
ghost use Rattle.std.specs.Prelude.{ℕ};
ghost use Rattle.clap.specs.Words.{app_of, FailsBy, fault_of, found_of, kind_of, new_rule, rule_of};
ghost use Rattle.std.specs.{IoError.error_kind, Vec.Iter.into_iter_items};
ghost use Rattle.krs_listen.specs.Choice.{choice_by, IsToldAs, IsUnread, LeadsTo, wanted_text};
ghost use Rattle.krs_listen.specs.CommandLine.{accept_rule, daemon, Gives, lanes_rule, socket_rule, Spells};
ghost use Rattle.krs_listen.specs.declared.choice.Choice.TheVariants.{Memory};

use crate::options::Options;
use clap::error::ErrorKind;
use clap::{Arg, ArgMatches, Command, Error, value_parser};
use krs_words::VERSION;
use std::alloc::{AllocError, Global};
use std::env::Args;
use std::io;

const SOCKET: &str = "socket";

const LANES: &str = "lanes";

const ACCEPT: &str = "accept";

const ABOUT: &str = "\
A key store on a Unix socket that works as Linux's key retention service does:
keyrings(7), keyctl(2).";

const SOCKET_HELP: &str = "where clients connect: a path that doesn't exist yet";

const LANES_HELP: &str = "how many connections at a time, 1 to 256";

const ACCEPT_HELP: &str = "ends after so many connections; else it goes on";

const STATUSES: &str = "\
Prints `listening PATH` once clients can connect, and `served N` after its last
connection. The uid, gid and groups that a client names are trusted: a client
that may open the path may use every key.

Exit status: 0; 1 if memory ran out before it listened; 2 for usage; 3 if the
path could not be bound, which is `error: socket`, or a connection not be
accepted, which is `error: accept`. Standard error says why.";

const NUMBERS: &str =
    "keyretaind: --lanes takes a number from 1 to 256, --accept one from 0 to 4294967295\n";

const PATH: &str = "keyretaind: --socket takes the path where it listens, which isn't there yet\n";

/// What the program does, by its words.
#[derive(Drop)]
pub enum Choice {
    /// It serves connections.
    Serve(Options),
    /// The words are none that the program takes.
    Usage,
    /// There was no memory for the words.
    Memory,
    /// The text of `--help` or `--version`.
    Shown(String),
    /// What is refused of the words, as the reader of options tells it.
    Refused(String),
}

/// What the words lead to, the first of which is the program's name. Words that are no text are usage.
pub fn choose(alloc: Global, words: io::Result<Args>) -> Choice
    ensures read { IfOk words (λ words. LeadsTo (map string_bytes (into_iter_items words)) result) }
    ensures unread { IfErr words (λ error. IsUnread (error_kind error) result) }
{
    match words {
        Ok(words) => choice_of_all(alloc, words.collect(alloc)),
        Err(error) if error.kind() == io::ErrorKind::OutOfMemory => Choice::Memory,
        Err(_) => Choice::Usage,
    }
}

/// What all the words lead to, for which there may be no memory.
fn choice_of_all(alloc: Global, words: Result<Vec<String>, AllocError>) -> Choice
    ensures words { IfOk words (λ words. LeadsTo (map string_bytes words.items) result) }
    ensures memory { OnErr words (result ≡ Memory) }
{
    match words {
        Ok(words) => choice_of(alloc, options_in(alloc, words.as_slice())),
        Err(_) => Choice::Memory,
    }
}

/// What was read of the words is served, or is usage; an error is told.
fn choice_of(alloc: Global, read: Result<Option<Options>, Error>) -> Choice
    ensures read { IfOk read (λ options. result ≡ choice_by options) }
    ensures told { IfErr read (λ error. (text : Option (List ℕ)) × IsToldAs (kind_of error) text result) }
{
    match read {
        Ok(Some(options)) => Choice::Serve(options),
        Ok(None) => Choice::Usage,
        Err(error) => {
            let next = next_for(error.kind());
            told(&error, format!(in alloc; "{error}{next}").ok())
        }
    }
}

/// What to do, told behind what the reader of options tells of an error of this kind.
fn next_for(kind: ErrorKind) -> &'static str
    ensures { result.now ≡ wanted_text kind }
{
    match kind {
        ErrorKind::ValueValidation => NUMBERS,
        ErrorKind::MissingRequiredArgument => PATH,
        _ => "",
    }
}

/// What is told in place of what the words ask for: the text of the reader's error, if memory was there for it.
fn told(error: &Error, text: Option<String>) -> Choice
    ensures { IsToldAs (kind_of error.now) (option_map string_bytes text) result }
{
    if error.kind() == ErrorKind::OutOfMemory {
        return Choice::Memory;
    }
    match text {
        Some(text) if error.use_stderr() => Choice::Refused(text),
        Some(text) => Choice::Shown(text),
        None => Choice::Memory,
    }
}

/// The options that the words, behind the program's name, spell. An error is `clap`'s refusal of them, or the text of
/// `--help` or `--version`.
fn options_in(alloc: Global, words: &[String]) -> Result<Option<Options>, Error>
    ensures spelled { IfOk result (Spells (map string_bytes words.now)) }
    ensures faults { FailsBy (fault_of daemon (map string_bytes words.now)) result }
{
    let matches = command_line(alloc)?.try_get_matches_from(words)?;
    Ok(options_of(alloc, &matches)?)
}

/// The options that these arguments give.
fn options_of(alloc: Global, matches: &ArgMatches<'_>) -> Result<Option<Options>, AllocError>
    ensures { IfOk result (Gives (found_of matches.now)) }
{
    let Some(path) = matches.get_str(SOCKET) else {
        return Ok(None);
    };
    let Some(lanes) = matches.get_one::<u32>(LANES) else {
        return Ok(None);
    };
    let accept = matches.get_one::<u32>(ACCEPT);
    Ok(Options::new(path.to_string(alloc)?, lanes, accept))
}

/// An option that is written `--NAME`, with one value.
fn option_named<'a>(alloc: Global, name: &'a str, value_name: &'a str) -> Arg<'a>
    ensures rule { rule_of result
        ≡ record (new_rule name.entry.now) { long = Some name.entry.now; value_names = 1 } }
    ensures local { result.global ≡ false }
{
    Arg::new(alloc, name).long(name).value_name(value_name)
}

/// `--socket PATH`.
fn socket_option<'a>(alloc: Global) -> Arg<'a>
    ensures rule { rule_of result ≡ socket_rule }
    ensures local { result.global ≡ false }
{
    option_named(alloc, SOCKET, "PATH")
        .required(true)
        .help(SOCKET_HELP)
}

/// `--lanes L`.
fn lanes_option<'a>(alloc: Global) -> Arg<'a>
    ensures rule { rule_of result ≡ lanes_rule }
    ensures local { result.global ≡ false }
{
    option_named(alloc, LANES, "L")
        .value_parser(value_parser!(u32).range(1..=256))
        .default_value("16")
        .help(LANES_HELP)
}

/// `--accept N`.
fn accept_option<'a>(alloc: Global) -> Arg<'a>
    ensures rule { rule_of result ≡ accept_rule }
    ensures local { result.global ≡ false }
{
    option_named(alloc, ACCEPT, "N")
        .value_parser(value_parser!(u32))
        .help(ACCEPT_HELP)
}

fn command_line<'a>(alloc: Global) -> Result<Command<'a>, AllocError>
    ensures { IfOk result (λ command. app_of command ≡ daemon) }
{
    Command::new(alloc, "keyretaind")
        .version(VERSION)
        .about(ABOUT)
        .after_help(STATUSES)
        .arg(socket_option(alloc))?
        .arg(lanes_option(alloc))?
        .arg(accept_option(alloc))
}
