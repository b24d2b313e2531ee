ghost use Rattle.std.specs.Prelude.{◌≡◌, ◌≢◌, ◌≤◌, Bool, false, List, ℕ};
ghost use Rattle.krs_types.specs.{Growth.grows, declared.{errno.Errno.TheVariants.ENOMEM, event.Event.Event}};
ghost use Rattle.krs_model.specs.Confidentiality.{HasToItself, KeepsPrivate, LeavesAlone, ReadsAlone, TellsNoStranger};
ghost use Rattle.krs_model.specs.History.{event_of};
ghost use Rattle.krs_model.specs.{Receiving.GivesStreams, Revocation.StaysUnread, Secrecy.{KeepsSecrets, ReadsByRight}};
ghost use Rattle.krs_model.specs.{Sound.IsSound, State.{raised, starting_at, State}, Step.Step};
ghost use Rattle.krs_store.specs.Told.{bytes_of, reply_of};

use crate::Told;
use crate::serving::{serve, serve_into};
use krs_key_asks::Taker;
use krs_links::Seed;
use krs_tables::Tables;
use krs_types::{Ask, Errno, Fault, Reply};
use std::alloc::Global;
use std::marker::Model;

/// A key store: keyrings(7) for one thread. Between two asks it is sound: no keyring reaches itself, a keyring has
/// one link for a type and description, links and attachments are of keys that are there, and every key is attached
/// or linked by one that is held.
pub struct Store {
    tables: Tables,
}

impl Model for Store {
    ghost use Rattle.krs_model.specs.{Sound.IsSound, State.State};

    ghost Value = { State };

    ghost view = { λ s. s.tables };

    ghost invariant = { λ s. IsSound s.tables };
}

// By hand, so that a crate which lets a store go needn't know what it is made of.
impl Drop for Store {
    fn drop(self) {
        let Self { tables: _ } = self;
    }
}

impl Store {
    /// An empty store.
    pub fn new(alloc: Global) -> Self
        ensures { result ≡ starting_at 3 }
    {
        Store::starting_at(alloc, 3)
    }

    /// An empty store that strangers may use: it hashes the names of links from this seed.
    pub fn seeded(alloc: Global, seed: Seed) -> Self
        ensures { result ≡ starting_at 3 }
    {
        Store::beginning(alloc, seed, 3)
    }

    /// An empty store that gives this serial next. Above 2147483647 it has none left.
    pub fn starting_at(alloc: Global, next: u32) -> Self
        requires { 3 ≤ next }
        ensures { result ≡ starting_at next }
    {
        Store::beginning(alloc, Seed::FIXED, next)
    }

    fn beginning(alloc: Global, seed: Seed, next: u32) -> Self
        requires { 3 ≤ next }
        ensures { result ≡ starting_at next }
    {
        Store {
            tables: Tables::starting_at(alloc, seed, next),
        }
    }

    /// From now on so many bytes are to be left for others: asks that would keep memory are refused with ENOMEM where
    /// there are fewer, and nothing else refuses them. It is for whoever has read an ask with the last memory: the
    /// store would keep what was read, and the next ask could not be read. No contract sees it.
    pub fn mind_memory(&self, wanted: u64) {
        self.tables.memory.leave(wanted);
    }

    /// Serves one ask of a client at a moment, in seconds: one step of the store. An accepted ask has its effect; its
    /// notes are posted; then the sweep drops what is not held, and posts removal records. Profile, order of notes.
    #[tactic(auto, unfolding(krs_model::specs::Step::Step))]
    #[inline(always)]
    pub fn apply(&mut self, client: u32, moment: u64, ask: Ask) -> Reply
        ensures step { Step self.old (event_of client moment ask result) self.new }
        ensures memory { grows ask.op ≡ false → result ≢ Err ENOMEM }
    {
        self.tables.raise(moment);
        match serve(&mut self.tables, client, ask) {
            Ok(answer) => {
                self.tables.sweep();
                Ok(answer)
            }
            Err(Fault::Memory) => Err(Errno::ENOMEM),
            Err(Fault::Refused(errno)) => Err(errno),
        }
    }

    /// As `apply`, but a taker may have the payload that a READ finds, where it lies.
    #[tactic(auto, unfolding(krs_model::specs::Step::Step))]
    #[inline(always)]
    pub fn apply_into<T: Taker>(
        &mut self,
        client: u32,
        moment: u64,
        ask: Ask,
        taker: &mut T,
    ) -> Told
        ensures step { Step self.old (event_of client moment ask (reply_of result)) self.new }
        ensures taken { T.took taker.old (bytes_of result) taker.new }
        ensures memory { grows ask.op ≡ false → reply_of result ≢ Err ENOMEM }
    {
        self.tables.raise(moment);
        match serve_into(&mut self.tables, client, ask, taker) {
            Ok(given) => {
                self.tables.sweep();
                Told::accepted(given)
            }
            Err(Fault::Memory) => Told::Reply(Err(Errno::ENOMEM)),
            Err(Fault::Refused(errno)) => Told::Reply(Err(errno)),
        }
    }

    /// A law of every store: what holds of it between two asks.
    pub fn is_sound(&self)
        ensures { IsSound self.now }
    {
        let _tables = &self.tables;
    }

    /// A law of every store: whatever it is asked from now on, no key is read once it was revoked. keyctl(2),
    /// KEYCTL_REVOKE.
    pub fn revoked_keys_are_not_read(&self)
        ensures { StaysUnread self.now }
    {
        let _tables = &self.tables;
    }

    /// A law of every store: whatever it is asked from now on, what a client hasn't read, it can't tell from another
    /// secret: a payload is told in no reply and no record but those of accepted READs. So it is of the payloads that
    /// the store has now, too.
    pub fn unread_payloads_stay_secret(&self)
        ensures { KeepsSecrets self.now }
    {
        let _tables = &self.tables;
    }

    /// A law of every store: whatever it is asked from now on, each key that is read may be read by the context that
    /// asks, at that moment. keyctl(2), KEYCTL_READ; profile, reading by possession.
    pub fn keys_are_read_by_right(&self)
        ensures { ReadsByRight self.now }
    {
        let _tables = &self.tables;
    }

    /// A law of every store: whatever it is asked from now on, no user reads another's keys, unless it was given them.
    /// Each accepted READ of a key that a uid has to itself, and has not given away since, is in a context of that uid;
    /// a uid may begin with none of the keys. keyrings(7), "Possession" and "Access rights".
    pub fn no_user_reads_anothers_keys(&self)
        ensures reads { (uid : ℕ) (private : ℕ → Bool) → HasToItself uid private self.now
            → ReadsAlone uid private self.now }
        ensures kept { (uid : ℕ) (private last : ℕ → Bool) (events : List Event) (end : State)
            → HasToItself uid private self.now → KeepsPrivate uid private self.now events end last
            → HasToItself uid last end }
        ensures begins { (uid : ℕ) → HasToItself uid (λ k. false) self.now }
    {
        let _tables = &self.tables;
    }

    /// A law of every store: whatever it is asked from now on, an ask in no context of a uid changes no key that the
    /// uid has to itself, and has not given away since, nor drops one; only an invalidated key goes out of its links.
    pub fn others_neither_change_nor_drop_a_key(&self)
        ensures { (uid : ℕ) (private : ℕ → Bool) → HasToItself uid private self.now
            → LeavesAlone uid private self.now }
    {
        let _tables = &self.tables;
    }

    /// A law of every store: whatever it is asked from now on, a client that asks nothing in a context of a uid is told
    /// the same, whatever the payloads are of the keys that the uid has to itself in the end.
    pub fn nothing_flows_between_users(&self)
        ensures { (uid : ℕ) (private : ℕ → Bool) → HasToItself uid private self.now
            → TellsNoStranger uid private self.now }
    {
        let _tables = &self.tables;
    }

    /// A law of every store: whatever it is asked from now on, each queue that is opened gives its stream.
    /// core-api/watch_queue.rst, "Watch Queue (Notification Output) API".
    pub fn queues_give_their_streams(&self)
        ensures { GivesStreams self.now }
    {
        let _tables = &self.tables;
    }
}
