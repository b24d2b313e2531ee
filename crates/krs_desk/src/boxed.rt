//! A store on the heap.
ghost use Rattle.std.specs.Prelude.{◌≡◌, IfErr, IfOk};
ghost use Rattle.krs_model.specs.{History.event_of, Step.Step};
ghost use Rattle.krs_store.specs.Told.{bytes_of, reply_of};

use krs_store::{Store, Taker, Told};
use krs_types::{Ask, Reply};
use std::alloc::Global;
use std::marker::Model;

/// A store on the heap, which contracts see as the store. A slot of the table that has one is then no larger than one
/// that has an ask.
#[derive(Drop)]
pub struct BoxedStore {
    inner: Box<Store>,
}

impl Model for BoxedStore {
    ghost use Rattle.krs_model.specs.State.{State};

    ghost Value = { State };

    ghost view = { λ b. b.inner.value };
}

impl BoxedStore {
    /// The store comes back where there is no memory.
    pub fn new(alloc: Global, store: Store) -> Result<BoxedStore, Store>
        ensures made { IfOk result (λ boxed. boxed ≡ store) }
        ensures store { IfErr result (λ back. back ≡ store) }
    {
        match Box::new(alloc, store) {
            Ok(inner) => Ok(BoxedStore { inner }),
            Err(failed) => Err(failed.value),
        }
    }

    pub fn into_inner(self) -> Store
        ensures { result ≡ self }
    {
        let Self { inner } = self;
        Box::into_inner(inner)
    }

    /// So many bytes are to be left for others from now on.
    pub fn mind_memory(&self, wanted: u64) {
        self.inner.mind_memory(wanted);
    }

    /// One ask, of the store where it lies.
    #[inline(always)]
    pub fn apply(&mut self, lane: u32, moment: u64, ask: Ask) -> Reply
        ensures step { Step self.old (event_of lane moment ask result) self.new }
    {
        self.inner.apply(lane, moment, ask)
    }

    /// As `apply`, but a taker may have the payload that a READ finds.
    #[inline(always)]
    pub fn apply_into<T: Taker>(&mut self, lane: u32, moment: u64, ask: Ask, taker: &mut T) -> Told
        ensures step { Step self.old (event_of lane moment ask (reply_of result)) self.new }
        ensures taken { T.took taker.old (bytes_of result) taker.new }
    {
        self.inner.apply_into(lane, moment, ask, taker)
    }
}
