//! The table of a desk. What lies in it is reached by the steps of this file alone, and each of them is a step of the
//! machine: no other can change what a lane knows.
ghost use Rattle.std.specs.Prelude.{[], ◌<◌, ◌==◌, ◌∷◌, ◌≡◌, IfErr, IfOk, length};
ghost use Rattle.atomic_table.specs.Table.{Allows, Joins, opening as opened, rest, Splits, step};
ghost use mathlib.Core.Option.{none};
ghost use prog.Atomic.{either};
ghost use Rattle.krs_model.specs.{History.event_of, State.{starting_at, State}};
ghost use Rattle.krs_store.specs.Told.{bytes_of, reply_of};
ghost use Rattle.krs_desk.specs.Moves.{moved_told, stored_told};
ghost use Rattle.krs_desk.specs.Parts.{AreOnes, both_sights, given_sight, IsSpentFor, kept_sight, settled_sight, spent};
ghost use Rattle.krs_desk.specs.{Rule.{first_sight, InOneOrder}, Seated.{Has, Serves}};

use crate::slot::SlotValue;
use crate::steps::{Cut, Glue, OneOrder, Settle};
use crate::token::{Sight, Token};
use atomic_table::{Play, Refused, Table};
use krs_store::{Store, Taker, Told};
use krs_types::{Ask, Reply};
use std::alloc::Global;
use std::marker::{Model, PhantomData};
use std::snapshot::Snapshot;

/// What a step tells its caller, besides that it is one of the machine's.
pub(crate) trait Tells {
    ghost use Rattle.std.specs.Prelude.{ℕ};
    ghost use Rattle.atomic_table.specs.Table.{Step};
    ghost use Rattle.krs_desk.specs.{Steps.Known, declared.slot.SlotValue.SlotValue};

    ghost told: { Step SlotValue → Known → ℕ → Known → Type 0 };
}

// A step that finds a number.
struct Moved<T> {
    told: PhantomData<T>,
}

impl<T: Tells> Play<SlotValue, Sight> for Moved<T> {
    ghost then = { moved_told T.told };
}

// A step that stores one, whatever was there.
struct Stored<T> {
    told: PhantomData<T>,
}

impl<T: Tells> Play<SlotValue, Sight> for Stored<T> {
    ghost then = { stored_told T.told };
}

/// The words, the store in the first slot, and a slot for each lane.
#[derive(Drop)]
pub(crate) struct Board {
    table: Table<SlotValue, Sight, Snapshot<Store>, OneOrder, Global>,
}

impl Model for Board {
    ghost use Rattle.krs_desk.specs.Moves.{Tabled};

    ghost Value = { Tabled };

    ghost view = { λ b. record { id = b.table.shared.table_id; key = b.table.shared.key.value } };
}

impl Board {
    /// A table with these words and slots, and its first token. The slots come back where there is no memory.
    pub(crate) fn new(
        alloc: Global,
        words: &[u64],
        slots: Vec<SlotValue>,
        about: &Snapshot<Store>,
    ) -> Result<(Board, Token), Refused<SlotValue, Global>>
        requires { InOneOrder about.now.value (opened words.now slots.items (first_sight about.now.value)) }
        ensures ok { IfOk result (λ t. (t.0.id.words ≡ length words.now) × (t.0.id.slots ≡ length slots.items)
            × (t.1.table_id ≡ t.0.id) × (t.1.me ≡ (first_sight about.now.value, []))) }
        ensures err { IfErr result (λ r. r.slots.items ≡ slots.items) }
    {
        let (table, token) = Table::new(alloc, words, slots, about)?;
        Ok((Board { table }, token))
    }

    /// How many words it has.
    pub(crate) fn word_count(&self) -> usize
        ensures { result ≡ self.now.id.words }
    {
        self.table.word_count()
    }

    /// A look at a word, which tells nothing.
    #[inline]
    pub(crate) fn peek(&self, word: usize) -> u64
        requires { word < self.now.id.words }
    {
        self.table.shared.peek(word)
    }

    /// A load of a word.
    #[inline]
    pub(crate) fn load<T: Tells>(&self, seat: &mut Token, word: usize) -> u64
        requires { (seat.old.table_id ≡ self.now.id) × (word < self.now.id.words)
            × Allows (InOneOrder self.now.key) self.now.id.slots seat.old.id seat.old.me word (λ n. n)
            (moved_told T.told (step self.now.id.slots word 0 0 none) seat.old.me) }
        ensures { (seat.new.table_id ≡ seat.old.table_id) × (seat.new.id ≡ seat.old.id)
            × T.told (step self.now.id.slots word 0 0 none) seat.old.me result seat.new.me }
    {
        self.table.shared.load::<Moved<T>>(seat, word)
    }

    /// A store to a word.
    #[inline]
    pub(crate) fn store<T: Tells>(&self, seat: &mut Token, word: usize, new: u64)
        requires { (seat.old.table_id ≡ self.now.id) × (word < self.now.id.words)
            × Allows (InOneOrder self.now.key) self.now.id.slots seat.old.id seat.old.me word (λ _. new)
            (λ _. stored_told T.told (step self.now.id.slots word new 0 none) seat.old.me new) }
        ensures { (seat.new.table_id ≡ seat.old.table_id) × (seat.new.id ≡ seat.old.id)
            × T.told (step self.now.id.slots word new 0 none) seat.old.me new seat.new.me }
    {
        self.table.shared.store::<Stored<T>>(seat, word, new);
    }

    /// The word as it was, which has become `new` if it was `old`.
    #[inline]
    pub(crate) fn compare_exchange<T: Tells>(
        &self,
        seat: &mut Token,
        word: usize,
        old: u64,
        new: u64,
    ) -> u64
        requires { (seat.old.table_id ≡ self.now.id) × (word < self.now.id.words)
            × Allows (InOneOrder self.now.key) self.now.id.slots seat.old.id seat.old.me word
            (λ n. either (n == old) new n) (moved_told T.told (step self.now.id.slots word old new none) seat.old.me) }
        ensures { (seat.new.table_id ≡ seat.old.table_id) × (seat.new.id ≡ seat.old.id)
            × T.told (step self.now.id.slots word old new none) seat.old.me result seat.new.me }
    {
        self.table
            .shared
            .compare_exchange::<Moved<T>>(seat, word, old, new)
    }

    /// What the slot has that the token took last; it has the new value then.
    #[inline]
    pub(crate) fn exchange(&self, seat: &mut Token, slot: usize, new: SlotValue) -> SlotValue
        requires { (seat.old.table_id ≡ self.now.id)
            × ((old : SlotValue) × (seat.old.me.1 ≡ (slot, old) ∷ rest seat.old.me.1)) }
        ensures { (seat.new.table_id ≡ seat.old.table_id) × (seat.new.id ≡ seat.old.id)
            × (seat.old.me.1 ≡ (slot, result) ∷ rest seat.old.me.1)
            × (seat.new.me ≡ (seat.old.me.0, (slot, new) ∷ rest seat.old.me.1)) }
    {
        self.table.shared.exchange(seat, slot, new)
    }

    /// Asks the store in the slot that the token took last, which leaves so many bytes for others.
    #[inline(always)]
    pub(crate) fn serve(
        &self,
        seat: &mut Token,
        wanted: u64,
        lane: u32,
        moment: u64,
        ask: Ask,
    ) -> Reply
        requires table { seat.old.table_id ≡ self.now.id }
        requires has { (store : State) × Has seat.old.me store }
        ensures table { seat.new.table_id ≡ seat.old.table_id }
        ensures served { Serves seat.old.me (event_of lane moment ask result) seat.new.me }
    {
        let SlotValue::Home(home) = seat.slot_mut(&self.table.shared, 0) else {
            unreachable!()
        };
        home.mind_memory(wanted);
        home.apply(lane, moment, ask)
    }

    /// As `serve`, but a taker may have the payload that a READ finds.
    #[inline(always)]
    pub(crate) fn serve_into<T: Taker>(
        &self,
        seat: &mut Token,
        wanted: u64,
        lane: u32,
        moment: u64,
        ask: Ask,
        taker: &mut T,
    ) -> Told
        requires table { seat.old.table_id ≡ self.now.id }
        requires has { (store : State) × Has seat.old.me store }
        ensures table { seat.new.table_id ≡ seat.old.table_id }
        ensures served { Serves seat.old.me (event_of lane moment ask (reply_of result)) seat.new.me }
        ensures taken { T.took taker.old (bytes_of result) taker.new }
    {
        let SlotValue::Home(home) = seat.slot_mut(&self.table.shared, 0) else {
            unreachable!()
        };
        home.mind_memory(wanted);
        home.apply_into(lane, moment, ask, taker)
    }

    /// The opener deals a lane, a token of two lanes is split, and one of one lane gives it away.
    pub(crate) fn split_seat(&self, seat: &mut Token) -> Token
        requires { (seat.old.table_id ≡ self.now.id) × (0 < self.now.id.words)
            × Splits (InOneOrder self.now.key) seat.old.id seat.old.me.0 (kept_sight seat.old.me.0)
            (given_sight seat.old.me.0) }
        ensures { (seat.new.table_id ≡ seat.old.table_id) × (seat.new.id ≡ seat.old.id)
            × (seat.new.me ≡ (kept_sight seat.old.me.0, seat.old.me.1)) × (result.table_id ≡ seat.old.table_id)
            × (result.me ≡ (given_sight seat.old.me.0, [])) }
    {
        self.table.shared.split_seat::<Cut>(seat)
    }

    /// Two tokens of one lane each become one of two lanes.
    pub(crate) fn join_seat(&self, seat: &mut Token, other: Token)
        requires { (seat.old.table_id ≡ self.now.id) × (other.table_id ≡ self.now.id) × (other.me.1 ≡ [])
            × (0 < self.now.id.words)
            × Joins (InOneOrder self.now.key) seat.old.id seat.old.me.0 other.id other.me.0
            (both_sights seat.old.me.0 other.me.0) (spent (starting_at 3))
            × AreOnes seat.old.me.0 other.me.0 }
        ensures { (seat.new.table_id ≡ seat.old.table_id) × (seat.new.id ≡ seat.old.id)
            × (seat.new.me ≡ (both_sights seat.old.me.0 other.me.0, seat.old.me.1)) }
    {
        self.table.shared.join_seat::<Glue>(seat, other);
    }

    /// A token that stands for no lane takes over that of another.
    pub(crate) fn settle_seat(&self, seat: &mut Token, other: Token)
        requires { (seat.old.table_id ≡ self.now.id) × (other.table_id ≡ self.now.id) × (other.me.1 ≡ [])
            × (0 < self.now.id.words)
            × Joins (InOneOrder self.now.key) seat.old.id seat.old.me.0 other.id other.me.0
            (settled_sight seat.old.me.0 other.me.0) (spent (starting_at 3))
            × IsSpentFor seat.old.me.0 other.me.0 }
        ensures { (seat.new.table_id ≡ seat.old.table_id) × (seat.new.id ≡ seat.old.id)
            × (seat.new.me ≡ (settled_sight seat.old.me.0 other.me.0, seat.old.me.1)) }
    {
        self.table.shared.join_seat::<Settle>(seat, other);
    }
}
