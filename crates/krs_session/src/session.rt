// A session: turns of one read each, and LEAVE.
ghost use Rattle.std.specs.Prelude.{[], ◌+◌, ◌-◌, ◌≡◌, ◌≢◌, ◌≤◌, All, length, List, ℕ};
ghost use Rattle.krs_wire.specs.{Feeding.fault_of, Frame.{Frames, rest}};
ghost use Rattle.krs_session.specs.Serving.{AsksAndWrites, counts_at, Finished, MayServe, PieceEndsBy, RestsUnless};
ghost use Rattle.krs_session.specs.Serving.{Served, stand, Stays, TurnEndsBy};
ghost use Rattle.krs_session.specs.Session.{counts_of, EndsBy, HaveRoom, Session};

use crate::asking::ask_one;
use crate::connection::{Connection, Held, REPLY_ROOM, Setting};
use crate::cutting::{UNMET, cut};
use crate::{Clock, Ended, Gate, Keeper, Sink, Source};
use krs_types::{Ask, Op};
use krs_wire::{Framed, WireFault};
use std::alloc::Global;
use std::collections::VecDeque;

/// How many bytes a turn reads at most: docs/FORMAT.md, "A connection".
const READ_SIZE: usize = 4096;

impl<H, W: Sink, S, D: Keeper<S, H>, C: Clock, G: Gate> Connection<'_, H, W, S, D, C, G> {
    /// Asks what all the frames ask, and writes the replies, as `answer_all`. Where this session lacks memory, the
    /// store keeps nothing until the session has taken back what it can, and leaves what it lacks then, a whole reserve
    /// at most.
    fn answer_fed(&mut self, frames: &mut VecDeque<Framed>) -> Option<Ended>
        requires able { MayServe D.Keeper W.Sink self.old }
        ensures asks { AsksAndWrites D.Keeper C.Clock W.Sink (stand self.old) (stand self.new) frames.old.items result }
        ensures feed { self.new.held.now.feed ≡ self.old.held.now.feed }
        ensures told { self.new.held.now.lack ≤ 2097152 }
        ensures rests { RestsUnless D.Keeper self.old self.new result }
    {
        if self.held.feed.lacking() == 0 {
            self.held.lack.tell::<S, H, D>(self.setting.desk, 0);
            return self.answer_all(frames);
        }
        self.held.lack.tell::<S, H, D>(self.setting.desk, UNMET);
        let stop = self.answer_all(frames);
        self.held.feed.restock();
        let lacking = self.held.feed.lacking() as u64;
        self.held.lack.tell::<S, H, D>(self.setting.desk, lacking);
        stop
    }

    /// Asks what all the frames ask, and writes the replies. The feed has the room of the frames back then.
    fn answer_cut(&mut self, frames: Vec<Framed>) -> Option<Ended>
        requires able { MayServe D.Keeper W.Sink self.old }
        ensures asks { AsksAndWrites D.Keeper C.Clock W.Sink (stand self.old) (stand self.new) frames.items result }
        ensures feed { self.new.held.now.feed ≡ self.old.held.now.feed }
        ensures told { self.new.held.now.lack ≤ 2097152 }
        ensures rests { RestsUnless D.Keeper self.old self.new result }
    {
        let mut frames = VecDeque::from(frames);
        let stop = self.answer_fed(&mut frames);
        self.held.feed.reuse(Vec::from(frames));
        stop
    }

    /// Cuts a piece of the stream, wipes it, asks what its frames ask, and writes the replies. What ends the session is
    /// the answer.
    fn serve_piece(&mut self, piece: &mut [u8]) -> Option<Ended>
        requires unfailed { fault_of self.old.held.now.feed ≡ None }
        requires able { MayServe D.Keeper W.Sink self.old }
        ensures served { Served D.Keeper C.Clock W.Sink (stand self.old) (stand self.new)
            self.old.held.now.feed self.new.held.now.feed piece.old result }
        ensures wiped { All (λ b. b ≡ 0) piece.new }
        ensures count { PieceEndsBy (W.failures self.old.writer.now) (W.failures self.new.writer.now) result }
        ensures told { result ≡ None → self.new.held.now.lack ≤ 2097152 }
        ensures rests { RestsUnless D.Keeper self.old self.new result }
    {
        let held = &mut *self.held;
        match cut::<H, S, D>(self.setting.desk, &mut held.feed, &mut held.lack, piece) {
            Err(fault) => match fault {
                WireFault::Memory => Some(Ended::Memory),
                _ => Some(Ended::Wire(fault)),
            },
            Ok(frames) => match self.answer_cut(frames) {
                Some(stop) => Some(stop),
                None => match self.held.feed.fault() {
                    None => None,
                    Some(fault) => Some(Ended::Wire(fault)),
                },
            },
        }
    }

    /// One read, for which the seat rests, and what it leads to. While it waits, it holds no more room for replies than
    /// it began with.
    fn turn<R: Source>(&mut self, reader: &mut R, room: &mut [u8; READ_SIZE]) -> Option<Ended>
        requires unfailed { fault_of self.old.held.now.feed ≡ None }
        requires ready { D.ready self.old.setting.now.desk.now self.old.seat.now }
        requires rested { D.rested self.old.seat.now }
        requires room { HaveRoom 1 (counts_at R.Source W.Sink reader.old self.old) }
        ensures served { (read : List ℕ) × R.gave reader.old read reader.new × (length read ≤ 4096)
            × Served D.Keeper C.Clock W.Sink (stand self.old) (stand self.new)
            self.old.held.now.feed self.new.held.now.feed read result }
        ensures reads { R.reads reader.new ≡ R.reads reader.old + 1 }
        ensures count { TurnEndsBy (counts_at R.Source W.Sink reader.old self.old)
            (counts_at R.Source W.Sink reader.new self.new) result }
        ensures told { result ≡ None → self.new.held.now.lack ≤ 2097152 }
        ensures rests { RestsUnless D.Keeper self.old self.new result }
    {
        self.held.out.bytes.shrink_to(REPLY_ROOM);
        let room = &mut room[..];
        match reader.read(room) {
            Err(_) => Some(Ended::Read),
            Ok(n) => {
                if n == 0 {
                    return Some(Ended::Closed);
                }
                self.serve_piece(&mut room[..n])
            }
        }
    }

    /// Turns until something ends the session. The seat rests before the first.
    fn serve_turns<R: Source>(&mut self, reader: &mut R) -> Ended
        requires nothing { self.old.held.now.feed ≡ rest [] }
        requires empty { Frames [] [] self.old.held.now.feed }
        requires ready { D.ready self.old.setting.now.desk.now self.old.seat.now }
        requires room { HaveRoom self.old.setting.now.turns (counts_at R.Source W.Sink reader.old self.old) }
        ensures finished { Finished R.Source D.Keeper C.Clock W.Sink reader.old reader.new
            (stand self.old) (stand self.new) result }
        ensures count { EndsBy self.old.setting.now.turns (counts_at R.Source W.Sink reader.old self.old)
            (counts_at R.Source W.Sink reader.new self.new) result }
        ensures bounded { R.reads reader.new ≤ R.reads reader.old + self.old.setting.now.turns }
        ensures not_wire { result ≢ Ended.Wire WireFault.Memory }
        ensures stays { Stays D.Keeper self.old self.new }
    {
        let mut room = [0u8; READ_SIZE];
        self.setting.desk.rest(self.seat);
        for made in 0..self.setting.turns {
            if let Some(ended) = self.turn(reader, &mut room) {
                return ended;
            }
        }
        Ended::Turns
    }
}

/// Serves a connection to its end: docs/FORMAT.md, "A connection". A turn is one read of at most 4096 bytes, and after
/// `turns` turns the session ends. Each ask takes one answer of the clock, which is asked anew for the first that a
/// read brings, and passes the gate before it goes to the desk and after its reply is there. The replies to what a turn
/// brought go out together, or in pieces of about 64 KiB. However the session ends, LEAVE is asked last in the same
/// way, and its reply is not written.
pub fn run<H, R: Source, W: Sink, S, D: Keeper<S, H>, C: Clock, G: Gate>(
    rt: &H,
    alloc: Global,
    reader: &mut R,
    writer: &mut W,
    desk: &D,
    seat: &mut S,
    clock: &mut C,
    gate: &G,
    turns: u64,
) -> Ended
    requires ready { D.ready desk.now seat.old }
    requires room { HaveRoom turns (counts_of R.reads R.empties R.failures W.failures reader.old writer.old) }
    ensures session { Session (λ bytes. R.gave reader.old bytes reader.new)
        (λ events. D.leads seat.old events seat.new)
        (λ moments. C.ticked clock.old moments clock.new)
        (λ text. W.took writer.old text writer.new)
        (D.lane_of seat.old) (R.reads reader.new - R.reads reader.old) result }

    // Why it ended, by the counts of its ends, and how many reads it made at most, however it ended.
    ensures count { EndsBy turns
        (counts_of R.reads R.empties R.failures W.failures reader.old writer.old)
        (counts_of R.reads R.empties R.failures W.failures reader.new writer.new) result }
    ensures bounded { R.reads reader.new ≤ R.reads reader.old + turns }
    ensures not_wire { result ≢ Ended.Wire WireFault.Memory }
    ensures ready { D.ready desk.now seat.new }
    ensures lane { D.lane_of seat.new ≡ D.lane_of seat.old }
    ensures rested { D.rested seat.new }
{
    let setting = Setting {
        rt,
        desk,
        gate,
        turns,
    };
    let mut held = Held::new(alloc);
    let mut connection = Connection::new(&setting, writer, seat, clock, &mut held);
    let ended = connection.serve_turns(reader);
    let Connection {
        setting: _,
        writer: _,
        seat: _,
        clock: _,
        held: _,
    } = connection;
    held.end::<S, H, D>(desk);
    let leave = Ask {
        context: 0,
        op: Op::Leave,
    };
    let _ = ask_one(&setting, seat, clock, leave);
    ended
}
