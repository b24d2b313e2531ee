ghost use Rattle.std.specs.Prelude.{◌≡◌, bytes_eq, map};
ghost use Rattle.krs_words.specs.Parsed.{Reads};
ghost use Rattle.krs_commands.specs.Command.{alone_of, command_behind, command_of, commands_from_changes};
ghost use Rattle.krs_commands.specs.Command.{commands_from_keys, commands_from_links, queue_commands, read_in};

use crate::{commands, contexts, keyrings, keys, queues};
use krs_types::Op;
use krs_words::NoCommand;
use std::alloc::Global;

/// What a line or a single call asks for.
#[derive(Drop)]
pub enum Command {
    /// The lines that follow are of this context.
    Context(u32),
    /// The lines that follow have this moment, in seconds.
    Moment(u64),
    /// An ask, whose reply is printed.
    Ask(Op),
    /// The payload of the key, or the serials that it links where it is a keyring.
    Rlist(i32),
    /// The records of a queue, as many as fit into that many bytes.
    Readq { queue: u32, room: u32 },
}

impl Command {
    /// Lets a command go. Where it ends without this call, the place has to be proved for each ask that it may hold.
    pub fn let_go(self) {}
}

/// Reads the words behind a first one of a group as its row says, and goes on behind that where it is none of them.
macro_rules! read {
    (contexts, $with:tt; contexts { $($rows:tt)* } $($others:tt)*) => { read!(@$with $($rows)*) };
    (keys, $with:tt; keys { $($rows:tt)* } $($others:tt)*) => { read!(@$with $($rows)*) };
    (changes, $with:tt; changes { $($rows:tt)* } $($others:tt)*) => { read!(@$with $($rows)*) };
    (links, $with:tt; links { $($rows:tt)* } $($others:tt)*) => { read!(@$with $($rows)*) };
    (queues, $with:tt; queues { $($rows:tt)* } $($others:tt)*) => { read!(@$with $($rows)*) };
    ($group:ident, $with:tt; $other:ident { $($rows:tt)* } $($others:tt)*) => { read!($group, $with; $($others)*) };
    (@($alloc:ident, $word:ident, $args:ident) $($name:literal $usage:literal $prints:literal $how:ident
        $reader:path;)*) => {
        $(if is($word, $name) {
            return read!(@$how $reader, $alloc, $args);
        })*
    };
    (@memory $reader:path, $alloc:ident, $args:ident) => { $reader($alloc, $args) };
    (@words $reader:path, $alloc:ident, $args:ident) => { $reader($args) };
    (@alone $op:path, $alloc:ident, $args:ident) => { alone($op, $args) };
}

/// The command that these words are.
pub fn parse(alloc: Global, words: &[&[u8]]) -> Result<Command, NoCommand>
    ensures { Reads result (command_of (map (λ w. w.now) words.now)) }
{
    let [word, args @ ..] = words else {
        return Err(NoCommand::Usage);
    };
    read_behind(alloc, word, args)
}

/// The command of this first word with these behind it.
#[tactic(auto, unfolding(crate::specs::Command::context_commands))]
fn read_behind(alloc: Global, word: &[u8], args: &[&[u8]]) -> Result<Command, NoCommand>
    ensures { Reads result (command_behind word.now (map (λ w. w.now) args.now)) }
{
    commands!(read, contexts, (alloc, word, args));
    read_from_keys(alloc, word, args)
}

/// The same among the commands from those of keys on.
#[tactic(auto, unfolding(crate::specs::Command::key_commands))]
fn read_from_keys(alloc: Global, word: &[u8], args: &[&[u8]]) -> Result<Command, NoCommand>
    ensures { Reads result (read_in commands_from_keys word.now (map (λ w. w.now) args.now)) }
{
    commands!(read, keys, (alloc, word, args));
    read_from_changes(alloc, word, args)
}

/// The same among the commands from those that change keys on.
#[tactic(auto, unfolding(crate::specs::Command::change_commands))]
fn read_from_changes(alloc: Global, word: &[u8], args: &[&[u8]]) -> Result<Command, NoCommand>
    ensures { Reads result (read_in commands_from_changes word.now (map (λ w. w.now) args.now)) }
{
    commands!(read, changes, (alloc, word, args));
    read_from_links(alloc, word, args)
}

/// The same among the commands from those of links on.
#[tactic(auto, unfolding(crate::specs::Command::link_commands))]
fn read_from_links(alloc: Global, word: &[u8], args: &[&[u8]]) -> Result<Command, NoCommand>
    ensures { Reads result (read_in commands_from_links word.now (map (λ w. w.now) args.now)) }
{
    commands!(read, links, (alloc, word, args));
    read_queue(alloc, word, args)
}

/// The same among the commands of queues.
#[tactic(auto, unfolding(crate::specs::Command::queue_commands))]
fn read_queue(alloc: Global, word: &[u8], args: &[&[u8]]) -> Result<Command, NoCommand>
    ensures { Reads result (read_in queue_commands word.now (map (λ w. w.now) args.now)) }
{
    commands!(read, queues, (alloc, word, args));
    Err(NoCommand::Usage)
}

/// Whether a word is this text.
fn is(word: &[u8], text: &str) -> bool
    ensures { result ≡ bytes_eq word.now text.now }
{
    word == text.as_bytes()
}

/// The ask of a command that takes no words.
fn alone(op: Op, args: &[&[u8]]) -> Result<Command, NoCommand>
    ensures { Reads result (alone_of op (map (λ w. w.now) args.now)) }
{
    let [] = args else {
        return Err(NoCommand::Usage);
    };
    Ok(Command::Ask(op))
}
