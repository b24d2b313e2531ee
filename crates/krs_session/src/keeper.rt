ghost use Rattle.std.specs.Prelude.{[], ◌++◌, ◌∷◌, ◌≡◌, false, List, ℕ};
ghost use Rattle.krs_types.specs.declared.event.Event.{Event};
ghost use Rattle.krs_model.specs.History.{event_of};
ghost use Rattle.krs_store.specs.Told.{bytes_of, reply_of};
ghost use Rattle.krs_session.specs.Replies.{HoldsFrame};

use crate::Replies;
use krs_store::Told;
use krs_types::{Ask, Reply};

/// A desk, whose seats `S` it answers. `R` is the runtime under which a call may wait.
pub trait Keeper<S, R> {
    // What a call asks of the desk and the seat, and keeps.
    ghost ready: { Self → S → Type 0 };

    // The client number of a seat's asks.
    ghost lane_of: { S → ℕ };

    // This list of events leads from one seat to another.
    ghost leads: { S → List Event → S → Type 0 };

    // The seat keeps no turn for calls that would follow.
    ghost rested: { S → Type 0 };

    fn lane(&self, seat: &S) -> u32
        requires { ready self.now seat.now }
        ensures { result ≡ lane_of seat.now };

    /// The reply to an ask of the seat at a moment, in seconds.
    fn call(&self, rt: &R, seat: &mut S, moment: u64, ask: Ask) -> Reply
        requires { ready self.now seat.old }
        ensures ready { ready self.now seat.new }
        ensures lane { lane_of seat.new ≡ lane_of seat.old }
        ensures led { leads seat.old (event_of (lane_of seat.old) moment ask result ∷ []) seat.new }
        ensures rested { rested seat.new };

    /// As `call`, but a payload may come to be held among the replies at once. Where more calls of the seat follow, all
    /// others may have to wait for them, until a call with no more, or `rest`.
    fn call_into(
        &self,
        rt: &R,
        seat: &mut S,
        moment: u64,
        ask: Ask,
        more: bool,
        replies: &mut Replies,
    ) -> Told
        requires { ready self.now seat.old }
        ensures ready { ready self.now seat.new }
        ensures lane { lane_of seat.new ≡ lane_of seat.old }
        ensures led { leads seat.old (event_of (lane_of seat.old) moment ask (reply_of result) ∷ []) seat.new }
        ensures taken { HoldsFrame replies.old (bytes_of result) replies.new }
        ensures rested { more ≡ false → rested seat.new }
    {
        let _ = more;
        let _ = replies;
        Told::Reply(self.call(rt, seat, moment, ask))
    }

    /// Nobody has to wait for calls of the seat that would follow. What may block comes behind it.
    fn rest(&self, seat: &mut S)
        requires { ready self.now seat.old }
        ensures ready { ready self.now seat.new }
        ensures lane { lane_of seat.new ≡ lane_of seat.old }
        ensures led { leads seat.old [] seat.new }
        ensures rested { rested seat.new };

    /// Whether the session of a seat lacks memory.
    fn is_short(&self) -> bool;

    /// The session of a seat lacks so many bytes of its reserve, in place of those of which it told last. What is
    /// lacking should be left: asks that would keep memory, whoever makes them, refused with ENOMEM where there is
    /// less. No law says so.
    fn tell_lack(&self, told: &mut u64, lack: u64)
        ensures { told.new ≡ lack };

    ghost starts: { (s : S) → leads s [] s };

    ghost joins: { (s t u : S) (xs ys : List Event) → leads s xs t → leads t ys u → leads s (xs ++ ys) u };
}
