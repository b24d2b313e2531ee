ghost use Rattle.std.specs.Prelude.{◌≡◌, codes, IfErr, IfOk, map, string_bytes};
ghost use Rattle.std.specs.{IoError.error_kind, Vec.Iter.into_iter_items};
ghost use Rattle.krs_words.specs.Saying.{heard, Says as Tells};
ghost use Rattle.krs_script.specs.Ending.{Says};
ghost use Rattle.krs_ctl.specs.Choice.{IsUnread, misuse_text};
ghost use Rattle.krs_ctl.specs.{CommandLine.LeadsTo, Connecting.connecting, Program.Answers};
ghost use Rattle.krs_ctl.specs.declared.choice.Choice.{Choice as ChoiceIs};

use crate::choice::{Choice, Misuse, choose};
use crate::connecting::{call_at, script_at};
use crate::place::Connects;
use crate::script::run_script_at;
use krs_script::{OUT_OF_MEMORY, Place, USAGE, say, tell};
use krs_store::Store;
use krs_words::Voice;
use std::alloc::Global;
use std::env::Args;
use std::io;
use std::io::{Read, Write};

/// The program: from its words, the first of which is its name, and its three ends to its exit status. Where it asks
/// over a connection, `net` makes it: one, to the path that was chosen.
pub fn run_program<C: Connects, R: Read + Drop, W: Write, E: Write>(
    net: &mut C,
    alloc: Global,
    words: io::Result<Args>,
    input: R,
    output: &mut W,
    errors: &mut Voice<E>,
) -> u8
    ensures { (choice : ChoiceIs)
        × IfOk words (λ words. LeadsTo (map string_bytes (into_iter_items words)) choice)
        × IfErr words (λ error. IsUnread (error_kind error) choice)
        × Answers (connecting C.made C.failed C.closed C.Reader.remaining C.Writer.contents
        net.old net.new) choice (R.remaining input) (W.contents output.old) (W.contents output.new)
        (heard E.contents errors.old) (heard E.contents errors.new) result }
{
    let choice = choose(alloc, words);
    answer(net, alloc, choice, input, output, errors)
}

/// What each choice prints, and the status.
fn answer<C: Connects, R: Read + Drop, W: Write, E: Write>(
    net: &mut C,
    alloc: Global,
    choice: Choice,
    input: R,
    output: &mut W,
    errors: &mut Voice<E>,
) -> u8
    ensures { Answers (connecting C.made C.failed C.closed C.Reader.remaining C.Writer.contents
        net.old net.new) choice (R.remaining input) (W.contents output.old) (W.contents output.new)
        (heard E.contents errors.old) (heard E.contents errors.new) result }
{
    match choice {
        Choice::Script => {
            let mut place = Place::start(alloc);
            let store = Store::new(alloc);
            let (end, stopped) = run_script_at(alloc, input, output, store, &mut place);
            tell(alloc, errors, &place, stopped);
            end.status
        }
        Choice::Remote(path) => script_at(net, alloc, path.as_str(), input, output, errors),
        Choice::Call(call) => call_at(net, alloc, call, output, errors),
        Choice::Usage(why) => say_usage(output, errors, why),
        Choice::NoCommand(text) => {
            errors.tell(text.as_slice());
            say(output, USAGE, 2)
        }
        Choice::Memory => say_out_of_memory(output),
        Choice::Shown(text) => say(output, text.as_str(), 0),
        Choice::Refused(text) => {
            errors.say(text.as_str());
            2
        }
    }
}

/// Prints `usage`, and on the other output why.
fn say_usage<W: Write, E: Write>(output: &mut W, errors: &mut Voice<E>, why: Misuse) -> u8
    ensures said { Says (W.contents output.old) (W.contents output.new) (codes "usage\n") 2 result }
    ensures told { Tells (heard E.contents errors.old) (heard E.contents errors.new) (misuse_text why) }
{
    errors.say(text_of(why));
    say(output, USAGE, 2)
}

/// What is told of words that are none which the program takes.
fn text_of(why: Misuse) -> &'static str
    ensures { result.now ≡ misuse_text why }
{
    match why {
        Misuse::NoWords => "keyretain: there is no command: see keyretain --help\n",
        Misuse::NoSocket => {
            "keyretain: --socket PATH is missing: where a daemon listens, which a single command is for\n"
        }
        Misuse::CallerOfScript => {
            "keyretain: --uid and --gid are for a single command: a script names its caller by hello\n"
        }
        Misuse::NotText => {
            "keyretain: an argument isn't UTF-8: hex: and digits spell any bytes of a payload\n"
        }
    }
}

/// Says that there was no memory for the words.
fn say_out_of_memory<W: Write>(output: &mut W) -> u8
    ensures { Says (W.contents output.old) (W.contents output.new) (codes "error 12 ENOMEM\n") 1 result }
{
    say(output, OUT_OF_MEMORY, 1)
}
