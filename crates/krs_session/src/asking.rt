// The asks of a session.
ghost use Rattle.std.specs.Prelude.{[], ◌<◌, ◌∷◌, ◌≡◌, ◌≢◌, false, None, Some, true};
ghost use Rattle.krs_types.specs.{Rows.row_of, declared.event.Event.Event};
ghost use Rattle.krs_model.specs.History.{event_of};
ghost use Rattle.krs_store.specs.Told.{bytes_of, reply_of};
ghost use Rattle.krs_wire.specs.Reply.{reply_frame};
ghost use Rattle.krs_session.specs.Replies.{HoldsFrame};
ghost use Rattle.krs_session.specs.Serving.{Asked, AsksAndHolds, AsksAndWrites, IsAskedAnew, MayServe, OnlyWrites};
ghost use Rattle.krs_session.specs.Serving.{PendingNext, ReadsNothing, RestsUnless, stand, Stays, TellsNext};

use crate::connection::{Connection, Setting};
use crate::writing::forget;
use crate::{Clock, Ended, Gate, Keeper, Point, Replies, Sink};
use krs_store::Told;
use krs_types::{Ask, Reply};
use krs_wire::Framed;
use std::collections::VecDeque;

/// One ask at the clock's moment, and its reply.
pub(crate) fn ask_one<H, S, D: Keeper<S, H>, C: Clock, G: Gate>(
    setting: &Setting<'_, H, D, G>,
    seat: &mut S,
    clock: &mut C,
    ask: Ask,
) -> Reply
    requires { D.ready setting.now.desk.now seat.old }
    ensures asked { (event : Event) × (event.ask ≡ ask) × (event.reply ≡ result)
        × Asked D.Keeper C.Clock seat.old seat.new clock.old clock.new (event ∷ []) }
    ensures anew { IsAskedAnew C.renewed clock.old }
    ensures ready { D.ready setting.now.desk.now seat.new }
    ensures lane { D.lane_of seat.new ≡ D.lane_of seat.old }
    ensures rested { D.rested seat.new }
{
    let moment = clock.now();
    let lane = setting.desk.lane(seat);
    setting.gate.pass(lane, Point::Asked);
    let reply = setting.desk.call(setting.rt, seat, moment, ask);
    setting.gate.pass(lane, Point::Answered);
    reply
}

/// One ask at a moment among those of a piece, and its reply, which may be held then. Where more follow, others may
/// have to wait for them.
fn ask_among<H, S, D: Keeper<S, H>, G: Gate>(
    setting: &Setting<'_, H, D, G>,
    seat: &mut S,
    moment: u64,
    ask: Ask,
    more: bool,
    out: &mut Replies,
) -> Told
    requires { D.ready setting.now.desk.now seat.old }
    ensures led { D.leads seat.old (event_of (D.lane_of seat.old) moment ask (reply_of result) ∷ []) seat.new }
    ensures taken { HoldsFrame out.old (bytes_of result) out.new }
    ensures ready { D.ready setting.now.desk.now seat.new }
    ensures lane { D.lane_of seat.new ≡ D.lane_of seat.old }
    ensures rested { more ≡ false → D.rested seat.new }
    ensures long { (row_of ask.op).long ≡ true → D.rested seat.new }
{
    let goes_on = more && !setting.gate.may_hold() && !ask.op.is_long();
    let lane = setting.desk.lane(seat);
    setting.gate.pass(lane, Point::Asked);
    let told = setting
        .desk
        .call_into(setting.rt, seat, moment, ask, goes_on, out);
    setting.gate.pass(lane, Point::Answered);
    told
}

/// The moment of an ask: the clock's next answer, or the one before again, where it was asked for this piece already.
fn moment_of<C: Clock>(clock: &mut C, was_asked: bool) -> u64
    ensures ticked { C.ticked clock.old (result ∷ []) clock.new }
    ensures anew { was_asked ≡ false → C.renewed clock.old result clock.new }
{
    if was_asked {
        return clock.again();
    }
    clock.now()
}

impl<H, W: Sink, S, D: Keeper<S, H>, C: Clock, G: Gate> Connection<'_, H, W, S, D, C, G> {
    /// A reply is held or written where nothing stopped the writing before.
    fn reply_behind(&mut self, tag: Option<u64>, reply: Reply, stop: Option<Ended>) -> Option<Ended>
        requires ready { D.ready self.old.setting.now.desk.now self.old.seat.now }
        requires failures { stop ≡ None → W.failures self.old.writer.now < u64.MAX }
        ensures sent { PendingNext W.Sink self.old.writer.now self.new.writer.now
            self.old.held.now.out.bytes.items self.new.held.now.out.bytes.items (reply_frame tag reply) stop result }

        // Where it ends for memory, the replies that were held before are written.
        ensures memory { stop ≡ None → result ≡ Some Ended.Memory
            → W.took self.old.writer.now self.old.held.now.out.bytes.items self.new.writer.now }
        ensures writes { OnlyWrites D.Keeper self.old self.new }
        ensures stays { Stays D.Keeper self.old self.new }
    {
        match stop {
            None => self.send_reply(tag, &reply),
            Some(_) => stop,
        }
    }

    /// The same of a reply that may be held already.
    fn told_behind(&mut self, tag: Option<u64>, told: Told, stop: Option<Ended>) -> Option<Ended>
        requires ready { D.ready self.old.setting.now.desk.now self.old.seat.now }
        requires failures { stop ≡ None → W.failures self.old.writer.now < u64.MAX }
        ensures sent { TellsNext W.Sink self.old.writer.now self.new.writer.now
            self.old.held.now.out self.new.held.now.out tag told stop result }
        ensures writes { OnlyWrites D.Keeper self.old self.new }
        ensures stays { Stays D.Keeper self.old self.new }
    {
        match told {
            Told::Taken(_) => stop,
            Told::Reply(reply) => self.reply_behind(tag, reply, stop),
        }
    }

    /// Asks what all the frames ask, which are taken out: the clock is asked once for all of them. The replies are held
    /// or written while nothing stops the writing.
    fn ask_all(&mut self, frames: &mut VecDeque<Framed>) -> Option<Ended>
        requires able { MayServe D.Keeper W.Sink self.old }
        requires empty { self.old.held.now.out.bytes.items ≡ [] }
        ensures holds { AsksAndHolds D.Keeper C.Clock W.Sink (stand self.old) (stand self.new)
            self.new.held.now.out.bytes.items frames.old.items result }
        ensures anew { frames.old.items ≢ [] → IsAskedAnew C.renewed self.old.clock.now }
        ensures reads { ReadsNothing self.old self.new }
        ensures stays { Stays D.Keeper self.old self.new }
    {
        let mut stop = None;
        let mut was_asked = false;
        'frames: while let Some(framed) = frames.pop_front() {
            let Framed { ask, tag } = framed;
            let moment = moment_of(self.clock, was_asked);
            was_asked = true;
            let more = !frames.is_empty();
            self.held.out.tag = tag;
            let told = ask_among(
                self.setting,
                self.seat,
                moment,
                ask,
                more,
                &mut self.held.out,
            );
            stop = self.told_behind(tag, told, stop);
        }
        stop
    }

    /// Asks what all the frames ask, which are taken out, and writes the replies together while nothing stops it. What
    /// is held before means nothing.
    pub(crate) fn answer_all(&mut self, frames: &mut VecDeque<Framed>) -> Option<Ended>
        requires able { MayServe D.Keeper W.Sink self.old }
        ensures asks { AsksAndWrites D.Keeper C.Clock W.Sink (stand self.old) (stand self.new) frames.old.items result }
        ensures reads { ReadsNothing self.old self.new }
        ensures rests { RestsUnless D.Keeper self.old self.new result }
    {
        self.held.out.bytes.clear();
        match self.ask_all(frames) {
            None => self.flush(),
            Some(stop) => {
                forget(&mut self.held.out.bytes);
                Some(stop)
            }
        }
    }
}
