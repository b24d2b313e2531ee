//! Who changes what in a desk, whose its contexts and queues are, and what it never holds more of.
ghost use Rattle.krs_laws.specs.Belonging.{ContextsAreTheirClients, LeavesNothing, QueuesAreTheirClients};
ghost use Rattle.krs_laws.specs.Belonging.{ReadersHaveNamedThemselves};
ghost use Rattle.krs_laws.specs.{Emptied.{AreEmptiedByLeaving, AreEmptiedInTheEnd}, Expired.ExpiredStaysUnread};
ghost use Rattle.krs_laws.specs.Going.{AllAttachesByRight, AllQueuesAreByRight};
ghost use Rattle.krs_laws.specs.{Integrity.AllChangesAreByRight, Limits.{IsWithinLimits, StaysWithinLimits}};
ghost use Rattle.krs_laws.specs.Marks.{QuietAsksHaveNoNote, ShortAsksDropOneAtMost};
ghost use Rattle.krs_laws.specs.Noting.{AllNotesAreByRight, AllNotesAreCalledFor, AllWatchesAreByRight};
ghost use Rattle.krs_laws.specs.{Noting.QueuesAreTheirOwners, Overwritten.{AddsForget, UpdatesForget}};

use crate::seat::Seat;

impl Seat {
    /// In every history of the desk a key changes only by an ask of a context that has the right to change it then, a
    /// new key is its maker's, LINK is wanted of each key that is linked anew, and a key that goes was held by nothing
    /// any more. An ask that isn't long drops one key at most, and one that doesn't tell has no note. keyrings(7),
    /// "Access rights".
    pub fn each_change_is_by_right(&self)
        ensures right { AllChangesAreByRight self.now.opening }
        ensures short { ShortAsksDropOneAtMost self.now.opening }
        ensures quiet { QuietAsksHaveNoNote }
    {
        let _token = &self.token;
    }

    /// In every history of the desk an attachment goes only by EXIT, EXEC, LEAVE or JOIN of a context of its client, or
    /// as its key is invalidated, by SEARCH. It comes only by HELLO, THREAD or FORK; by JOIN of a keyring that may be
    /// joined; or new, in the context that asks or in its process. A queue comes by OPEN_QUEUE, has its filter by
    /// SET_FILTER, and ends by CLOSE_QUEUE or LEAVE, of its own client alone. A watch ends with its queue or key, or by
    /// WATCH of its queue's client. keyrings(7), "Anchoring keys"; core-api/watch_queue.rst.
    pub fn each_end_is_by_right(&self)
        ensures attachments { AllAttachesByRight self.now.opening }
        ensures queues { AllQueuesAreByRight self.now.opening }
    {
        let _token = &self.token;
    }

    /// Once a client has left, no context and no queue is its. In every history of a desk that was opened empty, each
    /// context acts as a caller that its own client has named, since it last left, and each queue is of the client that
    /// opened it, since it last left. Whoever reads a key that a uid has to itself has named itself as that uid.
    pub fn contexts_are_their_clients(&self)
        ensures left { LeavesNothing }
        ensures contexts { ContextsAreTheirClients self.now.opening }
        ensures queues { QueuesAreTheirClients self.now.opening }
        ensures readers { ReadersHaveNamedThemselves self.now.opening }
    {
        let _token = &self.token;
    }

    /// A queue is read, given a filter, closed and set to watch by its owner alone, and each watch was set in a context
    /// that had VIEW on the key then. Each record that is posted tells of the key of a watch at that queue, and has its
    /// id; so in every history of a desk that was opened empty that watch was set by right. core-api/watch_queue.rst.
    pub fn notes_are_by_right(&self)
        ensures owners { QueuesAreTheirOwners }
        ensures watches { AllWatchesAreByRight self.now.opening }
        ensures records { AllNotesAreCalledFor self.now.opening }
        ensures set { AllNotesAreByRight self.now.opening }
    {
        let _token = &self.token;
    }

    /// What an accepted UPDATE or ADD overwrote leaves no trace in the store or in later replies; and in every history
    /// of the desk no READ of a key is accepted once its time is over. keyctl(2), KEYCTL_UPDATE and
    /// KEYCTL_SET_TIMEOUT; add_key(2).
    pub fn old_payloads_stay_untold(&self)
        ensures overwritten { UpdatesForget }
        ensures added { AddsForget }
        ensures expired { ExpiredStaysUnread self.now.opening }
    {
        let _token = &self.token;
    }

    /// In every history of a desk that was opened within the limits, it stays within them; and once no client has a
    /// context or a queue, no key is left. So it is of a desk that was opened empty, once each client has left.
    pub fn limits_hold_in_every_history(&self)
        ensures limits { IsWithinLimits self.now.opening → StaysWithinLimits self.now.opening }
        ensures emptied { AreEmptiedInTheEnd self.now.opening }
        ensures left { AreEmptiedByLeaving self.now.opening }
    {
        let _token = &self.token;
    }
}
