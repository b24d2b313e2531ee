ghost use Rattle.std.specs.Prelude.{◌≡◌, Ok};
ghost use Rattle.krs_ctl.specs.Running.{EndsScript};

use krs_commands::Command;
use krs_script::{Carries, Place, listing, records, run_by};
use krs_store::Store;
use krs_types::{Answer, Ask, Op, Reply};
use krs_words::{Output, Stop};
use std::alloc::Global;
use std::io::{Read, Write};

/// The client number of a script: it has its store for itself.
const CLIENT: u32 = 0;

/// How a script ended.
#[derive(Drop)]
pub struct ScriptEnd {
    /// 0; 1 where something was refused or memory ran out; 2 for usage; 3 where reading or printing failed.
    pub status: u8,
    pub store: Store,
}

/// Runs the lines of a reader on a store, as client 0, and prints a line for each to the writer. What was printed is
/// written out before a line is waited for.
/// No program calls it; tests do.
pub fn run_script<R: Read + Drop, W: Write>(
    alloc: Global,
    reader: R,
    writer: &mut W,
    store: Store,
) -> ScriptEnd
    ensures { EndsScript (R.remaining reader) (W.contents writer.old) (W.contents writer.new)
        store result }
{
    let mut place = Place::start(alloc);
    let (end, _) = run_script_at(alloc, reader, writer, store, &mut place);
    end
}

/// The same, with where in its lines the script stands at the end, and why it stopped.
pub(crate) fn run_script_at<R: Read + Drop, W: Write>(
    alloc: Global,
    reader: R,
    writer: &mut W,
    store: Store,
    place: &mut Place,
) -> (ScriptEnd, Result<(), Stop>)
    ensures ends { EndsScript (R.remaining reader) (W.contents writer.old) (W.contents writer.new)
        store result.0 }
    ensures whole { result.0.status ≡ 0 → result.1 ≡ Ok tt }
    ensures usage { result.0.status ≡ 2 → result.1 ≡ Err Stop.Usage }
{
    let mut script = Script {
        store,
        context: 0,
        moment: 0,
        refused: false,
    };
    let (status, stopped) = run_by(alloc, &mut script, reader, writer, place);
    let end = ScriptEnd {
        status,
        store: script.store,
    };
    (end, stopped)
}

/// A script between two lines.
#[derive(Drop)]
struct Script {
    store: Store,
    context: u32,
    moment: u64,
    refused: bool,
}

impl Carries for Script {
    ghost use Rattle.krs_ctl.specs.{Running.{Acts, NeverBreaks}, declared.script.Script.Script as ScriptIs};

    ghost State = { ScriptIs };

    ghost state = { λ script. script };

    ghost Kept = { Unit {0} };

    ghost kept = { λ _. tt };

    // No ask has a number.
    ghost asked = { λ _. 0 };

    ghost refused = { λ script. script.refused };

    ghost acts = { Acts };

    ghost breaks = { NeverBreaks };

    fn act(&mut self, _alloc: Global, command: Command) -> Result<Output, Stop> {
        Ok(self.carry_out(command))
    }

    fn is_refused(&self) -> bool {
        self.refused
    }
}

impl Script {
    ghost use Rattle.std.specs.Prelude.{◌≡◌};
    ghost use Rattle.krs_ctl.specs.Running.{Acts, Asks, ListsBy, StoreServes};

    fn carry_out(&mut self, command: Command) -> Output
        ensures { Acts self.old command result self.new }
    {
        match command {
            Command::Context(context) => {
                self.context = context;
                Output::Reply(Ok(Answer::Nothing))
            }
            Command::Moment(moment) => {
                self.moment = moment;
                Output::Reply(Ok(Answer::Nothing))
            }
            Command::Ask(op) => Output::Reply(self.ask(op)),
            Command::Rlist(id) => {
                let reply = self.ask(Op::Read { id });
                self.list(id, reply)
            }
            Command::Readq { queue, room } => records(self.ask(Op::ReadQueue { queue, room })),
        }
    }

    /// What a READ of this key comes to in a list. DESCRIBE tells whether the bytes are serials, and its refusal does
    /// not count as one of the script.
    fn list(&mut self, id: i32, reply: Reply) -> Output
        ensures { ListsBy self.old id reply result self.new }
    {
        match reply {
            Ok(Answer::Bytes(bytes)) => {
                let described = self.serve(Op::Describe { id });
                listing(bytes, &described)
            }
            Ok(answer) => Output::Reply(Ok(answer)),
            Err(error) => Output::Reply(Err(error)),
        }
    }

    fn ask(&mut self, op: Op) -> Reply
        ensures { Asks self.old op result self.new }
    {
        let is_hello = matches!(op, Op::Hello(_));
        let reply = self.serve(op);
        if let (true, Ok(Answer::Number(context))) = (is_hello, &reply) {
            self.context = *context;
        }
        self.refused |= reply.is_err();
        reply
    }

    fn serve(&mut self, op: Op) -> Reply
        ensures served { StoreServes self.old op result self.new.store }
        ensures stays { self.new ≡ record self.old { store = self.new.store } }
    {
        let ask = Ask {
            context: self.context,
            op,
        };
        self.store.apply(CLIENT, self.moment, ask)
    }
}
