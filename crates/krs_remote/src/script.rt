ghost use Rattle.std.specs.Prelude.{◌≡◌, Ok};
ghost use Rattle.krs_remote.specs.Remote.{EndsRemote};

use crate::remote::{Remote, start};
use krs_commands::Command;
use krs_script::{Carries, Place, run_by};
use krs_words::{Output, Stop};
use std::alloc::Global;
use std::io::{Read, Write};

/// Runs the lines of a reader over the two ends of a connection, and prints a line for each to the writer: the script's
/// status. What was printed is written out before a line is waited for.
/// No program calls it; tests do.
pub fn run_remote<R: Read + Drop, W: Write, F: Read + Drop, T: Write>(
    alloc: Global,
    reader: R,
    writer: &mut W,
    from: F,
    to: &mut T,
) -> u8
    ensures { EndsRemote (R.remaining reader) (W.contents writer.old) (W.contents writer.new)
        (T.contents to.old) (T.contents to.new) (F.remaining from) result }
{
    let mut place = Place::start(alloc);
    let (status, _) = run_remote_at(alloc, reader, writer, from, to, &mut place);
    status
}

/// The same, with where in its lines the script stands at the end, and why it stopped.
pub fn run_remote_at<R: Read + Drop, W: Write, F: Read + Drop, T: Write>(
    alloc: Global,
    reader: R,
    writer: &mut W,
    from: F,
    to: &mut T,
    place: &mut Place,
) -> (u8, Result<(), Stop>)
    ensures ends { EndsRemote (R.remaining reader) (W.contents writer.old) (W.contents writer.new)
        (T.contents to.old) (T.contents to.new) (F.remaining from) result.0 }
    ensures whole { result.0 ≡ 0 → result.1 ≡ Ok tt }
    ensures usage { result.0 ≡ 2 → result.1 ≡ Err Stop.Usage }
{
    let mut remote = start(from);
    let mut client = Client {
        remote: &mut remote,
        to,
    };
    let ended = run_by(alloc, &mut client, reader, writer, place);
    // Its parts are let go here, so that what they hold is known to be whose it was.
    let Client { remote: _, to: _ } = client;
    ended
}

/// A client with the end that it writes to.
struct Client<'a, F, T> {
    remote: &'a mut Remote<F>,
    to: &'a mut T,
}

impl<F: Read, T: Write> Carries for Client<'_, F, T> {
    ghost use Rattle.std.specs.Borrow.{GName};
    ghost use Rattle.krs_remote.specs.Remote.{Acts, Breaks, Talk, talk_of};

    ghost State = { Talk };

    ghost state = { λ client. talk_of F.remaining client.remote.now (T.contents client.to.now) };

    // It writes to the end that it was made with.
    ghost Kept = { GName };

    ghost kept = { λ client. client.to.ghost_name };

    ghost asked = { λ talk. talk.asked };

    ghost refused = { λ talk. talk.refused };

    ghost acts = { Acts };

    ghost breaks = { Breaks };

    fn act(&mut self, alloc: Global, command: Command) -> Result<Output, Stop> {
        self.remote.act(alloc, self.to, command)
    }

    fn is_refused(&self) -> bool {
        self.remote.refused
    }
}
