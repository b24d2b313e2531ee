//! A desk is opened with a store, and gives a seat for each lane.
ghost use Rattle.std.specs.Prelude.{[], ◌+◌, ◌<◌, ◌↔◌, ◌∷◌, ◌≡◌, ◌≤◌, All, IfErr, IfOk, length, replicate, slice_index};
ghost use Rattle.std.specs.Prelude.{vec_capacity};
ghost use Rattle.krs_model.specs.Sound.{IsSound};
ghost use Rattle.krs_desk.specs.Rule.{AreZero, first_sight};
ghost use Rattle.krs_desk.specs.{Sitting.{fresh_seats, IsIdleAt}, declared.opening.Why.TheVariants.{Lanes, Memory}};
ghost use Rattle.krs_desk.specs.declared.slot.SlotValue.TheVariants.{Empty, Home};

use crate::bells::Bells;
use crate::board::Board;
use crate::boxed::BoxedStore;
use crate::desk::Desk;
use crate::seat::Seat;
use crate::slot::SlotValue;
use crate::steps::{Opens, Picks};
use crate::token::Token;
use crate::word::{DEALING, FREE, TURN, cell_of};
use krs_store::Store;
use std::alloc::Global;
use std::mem;
use std::snapshot::Snapshot;
use std::sync::atomic::AtomicU64;

/// Why no desk was opened: the number of lanes is out of range, or there is no memory.
#[derive(Clone, Copy, Debug, PartialEq, Eq)]
pub enum Why {
    Lanes,
    Memory,
}

/// No desk was opened. The store comes back as it was.
#[derive(Drop)]
pub struct Refused {
    pub why: Why,
    pub store: Store,
}

impl Desk {
    // Deals a seat for each lane, and frees the turn.
    fn deal(&self, mut opener: Token, lanes: u32, seats: &mut Vec<Seat>, about: Snapshot<Store>)
        requires table { opener.table_id ≡ self.now }
        requires opens { opener.me ≡ (first_sight about.value, []) }
        requires slots { lanes < opener.table_id.slots }
        requires sound { IsSound about.value }
        requires room { (seats.old.items ≡ []) × (lanes ≤ vec_capacity seats.old) }
        ensures { seats.new.items ≡ fresh_seats self.now about.value lanes }
    {
        let table = &self.table;
        for lane in 0..lanes {
            let mut token = table.split_seat(&mut opener);
            table.load::<Picks>(&mut token, cell_of!(lane));
            seats.push_reserved(Seat {
                lane,
                idle: true,
                served: 0,
                token,
            });
        }
        table.store::<Opens>(&mut opener, TURN, FREE);
    }

    /// A desk of so many lanes, 1 to 256, with a seat for each.
    pub fn open(alloc: Global, lanes: u32, store: Store) -> Result<(Desk, Vec<Seat>), Refused>
        ensures seats { IfOk result (λ d. d.1.items ≡ fresh_seats d.0 store lanes) }
        ensures fit { IfOk result (λ d. All (IsIdleAt d.0) d.1.items) }
        ensures wide { IfOk result (λ d. d.0.words ≡ lanes + 1) }
        ensures lanes { IfOk result (λ d. (0 < lanes) × (lanes ≤ 256)) }
        ensures store { IfErr result (λ r. r.store ≡ store) }
        ensures why { IfErr result (λ r. (r.why ≡ Lanes) ↔ (¬ ((0 < lanes) × (lanes ≤ 256)))) }
    {
        if lanes == 0 || lanes > 256 {
            return Err(Refused {
                why: Why::Lanes,
                store,
            });
        }
        match Desk::open_within(alloc, lanes, store) {
            Ok(opened) => Ok(opened),
            Err(store) => Err(Refused {
                why: Why::Memory,
                store,
            }),
        }
    }

    // The store comes back where there is no memory.
    fn open_within(alloc: Global, lanes: u32, store: Store) -> Result<(Desk, Vec<Seat>), Store>
        requires { lanes ≤ 256 }
        ensures seats { IfOk result (λ d. d.1.items ≡ fresh_seats d.0 store lanes) }
        ensures wide { IfOk result (λ d. d.0.words ≡ lanes + 1) }
        ensures store { IfErr result (λ back. back ≡ store) }
    {
        let count = lanes as usize;
        let Ok(mut words) = Vec::from_elem(alloc, 0u64, count + 1) else {
            return Err(store);
        };
        words[TURN] = DEALING;
        let Ok(mut seats) = Vec::with_capacity(alloc, count) else {
            return Err(store);
        };
        let Ok(mut slots) = Vec::with_capacity(alloc, count + 1) else {
            return Err(store);
        };
        let Ok(bells) = Bells::new(alloc, count) else {
            return Err(store);
        };
        store.is_sound();
        let about = Snapshot::of(&store);
        let home = BoxedStore::new(alloc, store)?;
        slots.push_reserved(SlotValue::Home(home));
        for _ in 0..count {
            slots.push_reserved(SlotValue::Empty);
        }
        let (desk, opener) = Desk::lay(alloc, lanes, words, slots, bells, &about)?;
        desk.deal(opener, lanes, &mut seats, about);
        Ok((desk, seats))
    }

    // The table, and its first token, which deals the seats.
    fn lay(
        alloc: Global,
        lanes: u32,
        words: Vec<u64>,
        slots: Vec<SlotValue>,
        bells: Bells,
        about: &Snapshot<Store>,
    ) -> Result<(Desk, Token), Store>
        requires lanes { lanes ≤ 256 }
        requires words { (length words.items ≡ lanes + 1) × (slice_index words.items 0 ≡ 2) × AreZero words.items }
        requires slots { slots.items ≡ Home about.now.value ∷ replicate lanes Empty }
        ensures table { IfOk result (λ t. t.1.table_id ≡ t.0) }
        ensures slots { IfOk result (λ t. (t.1.table_id.slots ≡ lanes + 1) × (t.0.words ≡ lanes + 1)) }
        ensures opens { IfOk result (λ t. t.1.me ≡ (first_sight about.now.value, [])) }
        ensures store { IfErr result (λ back. back ≡ about.now.value) }
    {
        match Board::new(alloc, words.as_slice(), slots, about) {
            Ok((table, opener)) => Ok((
                Desk {
                    table,
                    bells,
                    lacking: AtomicU64::new(0),
                },
                opener,
            )),
            Err(refused) => {
                let mut back = refused.slots;
                let SlotValue::Home(home) = mem::replace(&mut back[0], SlotValue::Empty) else {
                    unreachable!()
                };
                Err(home.into_inner())
            }
        }
    }
}
