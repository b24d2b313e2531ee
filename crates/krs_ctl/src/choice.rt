ghost use Rattle.std.specs.Prelude.{[], ◌↔◌, ◌∷◌, ◌≡◌, codes, false, IfErr, IfOk, IsTrue, map, OnErr, string_bytes};
ghost use Rattle.clap.specs.Words.{app_of, FailsBy, fault_of, found_of, kind_of, rule_of};
ghost use Rattle.std.specs.{IoError.error_kind, Vec.Iter.into_iter_items};
ghost use Rattle.krs_ctl.specs.{Choice.{IsUnread, Tells}, CommandLine.{CallsOver, Chooses, client, command_in}};
ghost use Rattle.krs_ctl.specs.CommandLine.{LeadsTo, named, Names, number_rule, option_rule, Runs, Spells, words_rule};
ghost use Rattle.krs_ctl.specs.declared.choice.Choice.TheVariants.{Memory};

use clap::error::ErrorKind;
use clap::{Arg, ArgAction, ArgMatches, Command, Error, value_parser};
use krs_commands::commands;
use krs_remote::call_command;
use krs_script::no_command;
use krs_types::{Caller, Groups};
use krs_words::{NoCommand, VERSION};
use std::alloc::{AllocError, Global};
use std::env::Args;
use std::io;

const WORDS: &str = "COMMAND";

const SOCKET: &str = "socket";

const UID: &str = "uid";

const GID: &str = "gid";

const ABOUT: &str = "\
A client of a key store that works as Linux's key retention service does, for
scripts and other programs: at a terminal take keyretain-session(1) and
keyctl(1). Without --uid and --gid a single command asks as uid 0 and gid 0.";

const USES: &str = "keyretain script
       keyretain --socket PATH script
       keyretain --socket PATH [--uid N] [--gid N] COMMAND ..";

const NUMBERS: &str =
    "keyretain: options stand before the command; --uid and --gid take a number, as id -u and id -g print it\n";

const WORDS_HELP: &str = "script, for lines of standard input; or a single command";

macro_rules! help {
    (; $($group:ident { $($name:literal $usage:literal $prints:literal $how:ident $reader:path;)* })*) => {
        concat!(
            "Commands of a script, with what an accepted one prints:\n",
            $($("  ", $name, $usage, $prints, "\n",)*)*
            "
A script has a store of its own, or a server's over a socket. KEY and RING are a
serial, or @t, @p, @s, @u, @us for the thread, process, session, user and
user-session keyring. DATA is the word's bytes or, after `hex:`, the bytes that
pairs of hexadecimal digits spell. Bytes that aren't all printable are shown as
`:hex:` and digits. ENTRY is `type:info_filter:info_mask:subtypes`, four
hexadecimal numbers. Empty lines and lines that begin with `#` are skipped. Over
a socket there is no `moment`, as the server has its own clock; a single command
is none of `hello`, `context` and `moment`, and has a new context of --uid and
--gid, which ends with it.
A refused command prints its error, as `error 126 ENOKEY`; a line that is no
command prints `usage` and ends the script.

Example, a key that is made and read back:
  printf 'hello 1000 1000\nadd user alpha s3 @u\nprint 5\n' | keyretain script
prints 1, 5 and s3, a line each.

Exit status: 0; 1 if something was refused or memory ran out; 2 for usage; 3 if
the connection, reading or printing failed."
        )
    };
}

const COMMANDS: &str = commands!(help);

/// What the program does, by its words.
#[derive(Drop)]
pub enum Choice {
    /// The lines of standard input are run on a store of their own.
    Script,
    /// The lines of standard input are run over a connection to this path.
    Remote(String),
    /// One command is carried out over a connection.
    Call(Call),
    /// The words are none that the program takes.
    Usage(Misuse),
    /// The words of a single call are no command, with what is told of them.
    NoCommand(Vec<u8>),
    /// There was no memory for the words.
    Memory,
    /// The text of `--help` or `--version`.
    Shown(String),
    /// What is refused of the words, as the reader of options tells it.
    Refused(String),
}

/// Why words are none that the program takes.
#[derive(Clone, Copy, Debug, PartialEq, Eq)]
pub enum Misuse {
    /// There is no command.
    NoWords,
    /// There is a command other than `script`, and no path.
    NoSocket,
    /// There is a script, and a uid or a gid.
    CallerOfScript,
    /// A word is no text.
    NotText,
}

/// A single command over a connection to a path.
#[derive(Drop)]
pub struct Call {
    pub path: String,
    /// For whom a context is made first.
    pub caller: Caller,
    pub command: krs_commands::Command,
}

/// What the words lead to, the first of which is the program's name. Words that are no text are usage.
pub fn choose(alloc: Global, words: io::Result<Args>) -> Choice
    ensures read { IfOk words (λ words. LeadsTo (map string_bytes (into_iter_items words)) result) }
    ensures unread { IfErr words (λ error. IsUnread (error_kind error) result) }
{
    match words {
        Ok(words) => choice_of_all(alloc, words.collect(alloc)),
        Err(error) if error.kind() == io::ErrorKind::OutOfMemory => Choice::Memory,
        Err(_) => Choice::Usage(Misuse::NotText),
    }
}

/// What all the words lead to, for which there may be no memory.
fn choice_of_all(alloc: Global, words: Result<Vec<String>, AllocError>) -> Choice
    ensures words { IfOk words (λ words. LeadsTo (map string_bytes words.items) result) }
    ensures memory { OnErr words (result ≡ Memory) }
{
    match words {
        Ok(words) => choice_of(alloc, words.as_slice()),
        Err(_) => Choice::Memory,
    }
}

/// What the words lead to: the choice that they spell, or what the reader of options tells.
fn choice_of(alloc: Global, words: &[String]) -> Choice
    ensures { LeadsTo (map string_bytes words.now) result }
{
    match read_words(alloc, words) {
        Ok(choice) => choice,
        Err(error) => told(alloc, &error),
    }
}

/// What the reader of options tells in place of reading the words.
fn told(alloc: Global, error: &Error) -> Choice
    ensures { Tells (kind_of error.now) result }
{
    if error.kind() == ErrorKind::OutOfMemory {
        return Choice::Memory;
    }
    let next = next_for(error.kind());
    match format!(in alloc; "{error}{next}") {
        Ok(text) if error.use_stderr() => Choice::Refused(text),
        Ok(text) => Choice::Shown(text),
        Err(_) => Choice::Memory,
    }
}

/// What to do, told behind what the reader of options tells of an error of this kind.
fn next_for(kind: ErrorKind) -> &'static str {
    match kind {
        ErrorKind::ValueValidation | ErrorKind::UnknownArgument => NUMBERS,
        _ => "",
    }
}

/// The choice that the words, behind the program's name, call for. An error is `clap`'s refusal of them, or the text of
/// `--help` or `--version`.
fn read_words(alloc: Global, words: &[String]) -> Result<Choice, Error>
    ensures spelled { IfOk result (Spells (map string_bytes words.now)) }
    ensures faults { FailsBy (fault_of client (map string_bytes words.now)) result }
{
    let matches = command_line(alloc)?.try_get_matches_from(words)?;
    Ok(choice_among(alloc, &matches)?)
}

/// The choice that these arguments make.
fn choice_among(alloc: Global, matches: &ArgMatches<'_>) -> Result<Choice, AllocError>
    ensures { IfOk result (Chooses (found_of matches.now)) }
{
    let words = words_in(matches);
    if is_script(words) {
        return choice_of_script(alloc, matches);
    }
    if words.is_empty() {
        return Ok(Choice::Usage(Misuse::NoWords));
    }
    match matches.get_str(SOCKET) {
        Some(path) => choice_of_call(alloc, path, caller_of(alloc, matches), words),
        None => Ok(Choice::Usage(Misuse::NoSocket)),
    }
}

/// The words of the command, none where there are none.
fn words_in<'m, 'a>(matches: &'m ArgMatches<'a>) -> &'m [&'a str]
    ensures { map (λ word. word.now) result.now ≡ command_in (found_of matches.now) }
{
    matches.get_strs(WORDS).unwrap_or_default()
}

/// Whether these words are the one word `script`.
fn is_script(words: &[&str]) -> bool
    ensures { IsTrue result ↔ (map (λ word. word.now) words.now ≡ codes "script" ∷ []) }
{
    match words {
        [word] => *word == "script",
        _ => false,
    }
}

/// The choice that `script` makes, which is for no caller.
fn choice_of_script(alloc: Global, matches: &ArgMatches<'_>) -> Result<Choice, AllocError>
    ensures { IfOk result (Runs (found_of matches.now)) }
{
    if matches.get_str(UID).is_some() || matches.get_str(GID).is_some() {
        return Ok(Choice::Usage(Misuse::CallerOfScript));
    }
    match matches.get_str(SOCKET) {
        None => Ok(Choice::Script),
        Some(path) => Ok(Choice::Remote(String::from_str(alloc, path)?)),
    }
}

/// For whom a single call makes a context: of the uid and the gid that are given, each 0 where it is left out, and in
/// no groups.
fn caller_of(alloc: Global, matches: &ArgMatches<'_>) -> Caller
    ensures { Names (found_of matches.now) result }
{
    let uid = matches.get_one::<u32>(UID);
    let gid = matches.get_one::<u32>(GID);
    Caller {
        uid: uid.unwrap_or(0),
        gid: gid.unwrap_or(0),
        groups: Groups::new(Vec::new(alloc)),
    }
}

/// The single call that these words make, for a caller over a connection to a path.
fn choice_of_call(
    alloc: Global,
    path: &str,
    caller: Caller,
    words: &[&str],
) -> Result<Choice, AllocError>
    ensures { IfOk result (CallsOver path.now caller (map (λ w. w.now) words.now)) }
{
    let words = bytes_of(alloc, words)?;
    let path = String::from_str(alloc, path)?;
    match call_command(alloc, words.as_slice()) {
        Ok(command) => Ok(Choice::Call(Call {
            path,
            caller,
            command,
        })),
        Err(NoCommand::Usage) => Ok(Choice::NoCommand(no_command(alloc, words.as_slice())?)),
        Err(NoCommand::Memory) => Ok(Choice::Memory),
    }
}

/// The bytes of each word.
fn bytes_of<'a>(alloc: Global, words: &[&'a str]) -> Result<Vec<&'a [u8]>, AllocError>
    ensures { IfOk result (λ bytes. map (λ word. word.now) bytes.items ≡ map (λ word. word.now) words.now) }
{
    words.iter().map(|word| word.as_bytes()).collect(alloc)
}

fn command_line<'a>(alloc: Global) -> Result<Command<'a>, AllocError>
    ensures { IfOk result (λ command. app_of command ≡ client) }
{
    program(alloc)
        .arg(socket(alloc))?
        .arg(number(
            alloc,
            UID,
            "The uid of a single command, 0 where it is left out",
        ))?
        .arg(number(
            alloc,
            GID,
            "The gid of a single command, 0 where it is left out",
        ))?
        .arg(command_words(alloc))
}

/// The program, before it has any option.
fn program<'a>(alloc: Global) -> Command<'a>
    ensures app { app_of result ≡ named }
{
    Command::new(alloc, "keyretain")
        .version(VERSION)
        .about(ABOUT)
        .override_usage(USES)
        .after_help(COMMANDS)
}

/// `--socket PATH`.
fn socket<'a>(alloc: Global) -> Arg<'a>
    ensures rule { rule_of result ≡ option_rule (codes "socket") }
    ensures local { result.global ≡ false }
{
    Arg::new(alloc, SOCKET)
        .long(SOCKET)
        .value_name("PATH")
        .help("The path where a server listens")
}

/// All words from the command on.
fn command_words<'a>(alloc: Global) -> Arg<'a>
    ensures rule { rule_of result ≡ words_rule }
    ensures local { result.global ≡ false }
{
    Arg::new(alloc, WORDS)
        .action(ArgAction::Append)
        .num_args(0..)
        .trailing_var_arg(true)
        .help(WORDS_HELP)
}

/// An option that is written `--NAME`, with a number of 32 bits.
fn number<'a>(alloc: Global, name: &'a str, help: &'a str) -> Arg<'a>
    ensures rule { rule_of result ≡ number_rule name.entry.now }
    ensures local { result.global ≡ false }
{
    Arg::new(alloc, name)
        .long(name)
        .value_name("N")
        .value_parser(value_parser!(u32))
        .help(help)
}
