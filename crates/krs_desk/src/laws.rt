//! What holds of all that a seat has seen.
ghost use Rattle.std.specs.Prelude.{List, ℕ};
ghost use Rattle.krs_types.specs.declared.event.Event.{Event};
ghost use Rattle.krs_model.specs.{Receiving.GivesStreams, Revocation.StaysUnread, Secrecy.{HasOthers, IsGone}};
ghost use Rattle.krs_model.specs.{Secrecy.{ReadsByRight, TellsByReadsAlone, TellsNobody, TellsNoUnread}, State.State};
ghost use Rattle.krs_desk.specs.Between.{KeepsCollectedBetween, KeepsPostedBetween, KeepsRealTimeBetween};
ghost use Rattle.krs_desk.specs.{Between.RefusesRevoked, Happening.StepsHappen};
ghost use Rattle.krs_desk.specs.Machine.{BeginsAs, FollowsSteps, IsOneWorld, IsSomeWorld, RunsAs, StepsAs};
ghost use Rattle.krs_desk.specs.Moves.{CountsLooks, CountsMisses, CountsTurns, LooksInTurn};
ghost use Rattle.krs_desk.specs.Running.{KeepsRealTime, KeepsSeenLists, OnlyGrows, SeesOneOrder, StaysRefused};
ghost use Rattle.krs_desk.specs.{Running.StepsAsNamed, Seen.AreReadByRight};
ghost use Rattle.krs_desk.specs.Seen.{GivesItsStreams, IsNotReadRevoked, IsOneHistory, TellsNobodyAfter};

use crate::seat::Seat;

impl Seat {
    /// What a seat has seen is one legal history from the store that the desk was opened with.
    pub fn has_seen_one_history(&self)
        ensures { IsOneHistory self.now.opening self.now.part.seen }
    {
        let _token = &self.token;
    }

    /// The desk's table is a machine of krs_world, from the machine as it begins on, and each step of a seat is that
    /// machine's of its name, whatever happens to the table meanwhile. So the machine's laws hold of running threads. A
    /// call that is put or answered stands at the end of the one history, and the other steps leave it as it is.
    pub fn steps_are_the_machines(&self)
        ensures named { StepsAsNamed self.now.opening }
        ensures world { IsSomeWorld self.now.opening }
        ensures one { IsOneWorld self.now.opening }
        ensures steps { StepsAs self.now.opening }
        ensures runs { RunsAs self.now.opening }
        ensures begins { BeginsAs self.now.opening }
        ensures follows { FollowsSteps self.now.opening }
        ensures happens { StepsHappen self.now.opening }
    {
        let _token = &self.token;
    }

    /// Whatever steps threads make, the history only grows, what a seat has seen stays seen, and of the lists that two
    /// seats have seen one begins the other.
    pub fn the_history_only_grows(&self)
        ensures grows { OnlyGrows self.now.opening }
        ensures seen { KeepsSeenLists self.now.opening }
        ensures order { SeesOneOrder self.now.opening }
    {
        let _token = &self.token;
    }

    /// Real-time order, for callers that never met: whatever steps threads make between two moments, a call that was
    /// asked after the first, or was posted and not answered yet then, stands behind all that any seat had seen at the
    /// first. So calls are linearizable. The same of any two moments at which it is seen, however they came about.
    pub fn later_calls_stand_behind(&self)
        ensures running { KeepsRealTime self.now.opening }
        ensures asked { KeepsRealTimeBetween self.now.opening }
        ensures answered { KeepsPostedBetween self.now.opening }
        ensures collected { KeepsCollectedBetween self.now.opening }
    {
        let _token = &self.token;
    }

    /// In what a seat has seen, no READ of a key is accepted after an accepted REVOKE of it. So it is in every history
    /// of the desk; and of any two seats, whether or not they ever met, once one has seen the reply to a REVOKE, no
    /// READ by the other is accepted that wasn't answered by then. keyctl(2), KEYCTL_REVOKE.
    pub fn revoked_keys_are_not_read(&self)
        ensures seen { IsNotReadRevoked self.now.opening self.now.part.seen }
        ensures always { StaysUnread self.now.opening }
        ensures between { RefusesRevoked self.now.opening }
        ensures running { StaysRefused self.now.opening }
    {
        let _token = &self.token;
    }

    /// Of keys that it reads a client learns what its READs answer, and nothing else; those of others it can't tell
    /// from another secret, and there is a history for any other secret that they could be. So it is from wherever in
    /// what was seen one begins, in every history of the desk. Of a key that is gone nobody is told any more, as of one
    /// that was revoked or invalidated.
    pub fn unread_payloads_stay_secret(&self)
        ensures alone { (start : State) (events : List Event) → TellsByReadsAlone start events }
        ensures unread { (start : State) (events : List Event) → TellsNoUnread start events }
        ensures others { HasOthers }
        ensures gone { (start : State) (serial : ℕ) (events : List Event) → IsGone start serial
            → TellsNobody serial start events }
        ensures ended { TellsNobodyAfter self.now.opening }
    {
        let _token = &self.token;
    }

    /// No body can look at a lane's cell out of its turn, nor forget a turn, a try that found it taken, or a look:
    /// whatever a step tells, what its token knows says which of these it was.
    pub fn steps_are_counted(&self)
        ensures turns { CountsTurns }
        ensures misses { CountsMisses }
        ensures looks { CountsLooks }
        ensures in_turn { LooksInTurn }
    {
        let _token = &self.token;
    }

    /// In what a seat has seen, each key that is read may be read by the context that asks, at that moment. So it is in
    /// every history of the desk. keyctl(2), KEYCTL_READ; profile, reading by possession.
    pub fn keys_are_read_by_right(&self)
        ensures seen { AreReadByRight self.now.opening self.now.part.seen }
        ensures always { ReadsByRight self.now.opening }
    {
        let _token = &self.token;
    }

    /// For a queue that was opened in what a seat has seen: while it is open, what was read, followed by what waits, is
    /// its stream; once it is closed, what was read begins it. So it is in every history of the desk.
    /// core-api/watch_queue.rst, "Watch Queue (Notification Output) API".
    pub fn queues_give_their_streams(&self)
        ensures seen { GivesItsStreams self.now.opening self.now.part.seen }
        ensures always { GivesStreams self.now.opening }
    {
        let _token = &self.token;
    }
}
