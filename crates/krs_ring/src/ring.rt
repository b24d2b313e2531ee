ghost use Rattle.std.specs.Prelude.{◌*◌, ◌+◌, ◌≡◌, ◌≤◌, drop, false, IfErr, IfOk, if◌then◌else◌, IsTrue, length, OnOk};
ghost use Rattle.std.specs.Prelude.{slice_get};
ghost use Rattle.circular_buffer.specs.Buffer.{buffer};
ghost use Rattle.krs_model.specs.Notes.{Bytes.{bytes_of_all, is_loss}, Waiting.{after_post, is_capacity, total_room}};
ghost use Rattle.krs_ring.specs.{Ring.empty_ring, Slots.marked};

use circular_buffer::HeapCircularBuffer;
use krs_types::{Errno, Record};
use std::alloc::Global;
use std::marker::Model;

/// How many records a ring holds at most, eight times as many as a queue of the kernel: profile, exact rings.
const MAX_CAPACITY: u32 = 4096;

/// A kept record, and whether any were dropped after it.
#[derive(Clone, Copy, Debug)]
struct Slot {
    kept: Record,
    lost: bool,
}

/// What waits for the reader of a queue. A contract sees the capacity and the list, losses in it.
#[derive(Drop)]
pub struct NoteRing {
    slots: HeapCircularBuffer<Slot>,
    /// The record before a loss was taken, and the loss waits first.
    owed: bool,
}

impl Model for NoteRing {
    ghost use Rattle.krs_ring.specs.Ring.{Ring};

    ghost Value = { Ring };

    ghost use Rattle.krs_ring.specs.View.{IsNoteRing, ring_of};

    ghost view = { ring_of };

    ghost invariant = { IsNoteRing };
}

impl NoteRing {
    /// Whether there are rings of so many records: 1 to 4096.
    pub fn is_capacity(capacity: u32) -> bool
        ensures { result ≡ is_capacity capacity }
    {
        1 <= capacity && capacity <= MAX_CAPACITY
    }

    /// A ring of so many records: EINVAL where there is none, then ENOMEM.
    pub fn new(alloc: Global, capacity: u32) -> Result<NoteRing, Errno>
        ensures empty { IfOk result (λ r. r ≡ empty_ring capacity) }
        ensures capacity { OnOk result (IsTrue (is_capacity capacity)) }
        ensures refused { IfErr result (λ e.
            e ≡ (if is_capacity capacity then Errno.ENOMEM else Errno.EINVAL)) }
    {
        if !NoteRing::is_capacity(capacity) {
            return Err(Errno::EINVAL);
        }
        let Ok(slots) = HeapCircularBuffer::with_capacity(alloc, capacity as usize) else {
            return Err(Errno::ENOMEM);
        };
        Ok(NoteRing { slots, owed: false })
    }

    /// An upper bound of the bytes of all that waits.
    pub fn byte_bound(&self) -> usize
        ensures value { result ≡ 24 * total_room self.now.waiting + 8 }
        ensures bound { result ≤ 98312 }
        ensures fits { length (bytes_of_all self.now.waiting) ≤ result }
    {
        24 * self.slots.len() + 8
    }

    /// A record comes. It is kept where there is room, else dropped, and then a loss waits last.
    pub fn post(&mut self, note: Record)
        requires { is_loss note ≡ false }
        ensures { self.new ≡
            record self.old { waiting = after_post self.old.capacity note self.old.waiting } }
    {
        if self.slots.len() < self.slots.capacity() {
            let _ = self.slots.push_back(Slot {
                kept: note,
                lost: false,
            });
        } else {
            mark_last(&mut self.slots);
        }
    }

    /// The record that is read next.
    pub fn first(&self) -> Option<Record>
        ensures { result ≡ slice_get self.now.waiting 0 }
    {
        if self.owed {
            return Some(Record::Loss);
        }
        let slot = self.slots.front().copied()?;
        Some(slot.kept)
    }

    /// Reads a record.
    pub fn take(&mut self) -> Option<Record>
        ensures first { result ≡ slice_get self.old.waiting 0 }
        ensures rest { self.new ≡ record self.old { waiting = drop 1 self.old.waiting } }
    {
        if self.owed {
            self.owed = false;
            return Some(Record::Loss);
        }
        let slot = self.slots.pop_front()?;
        self.owed = slot.lost;
        Some(slot.kept)
    }
}

/// Marks the last slot of a full ring.
fn mark_last(slots: &mut HeapCircularBuffer<Slot>)
    requires full { length slots.old.items ≡ slots.old.capacity }
    requires room { 1 ≤ slots.old.capacity }
    ensures { slots.new ≡ buffer (marked slots.old.items) slots.old.capacity }
{
    if let Some(slot) = slots.pop_back() {
        let _ = slots.push_back(Slot { lost: true, ..slot });
    }
}
