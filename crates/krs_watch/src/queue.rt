ghost use Rattle.std.specs.Prelude.{◌++◌, ◌+◌, ◌==◌, ◌≡◌, ◌≤◌, false, IfOk, IsOk, length, nat_le, OnErr, OnOk};
ghost use Rattle.std.specs.Prelude.{vec_capacity, vec_len};
ghost use Rattle.krs_model.specs.Asks.Watching.{new_queue, with_filter};
ghost use Rattle.krs_model.specs.Notes.Bytes.{bytes_of, bytes_of_all, is_loss};
ghost use Rattle.krs_model.specs.Notes.{Front.{behind, front}, Posting.after_note};
ghost use Rattle.krs_watch.specs.{Offers.offered, Reads.ReadsQueue};

use crate::memory::Minded;
use krs_notes::{Filter, Record, encode, passes};
use krs_ring::NoteRing;
use krs_types::{Body, Errno, Fault};
use std::alloc::{AllocError, Global};
use std::marker::Model;

/// A client's queue. A contract sees the queue of the definitions.
#[derive(Drop)]
pub(crate) struct NoteQueue {
    client: u32,
    filter: Option<Filter>,
    ring: NoteRing,
}

impl Model for NoteQueue {
    ghost use Rattle.krs_model.specs.State.{Queue};

    ghost Value = { Queue };

    ghost use Rattle.krs_watch.specs.View.{queue_of};

    ghost view = { queue_of };
}

impl NoteQueue {
    /// An empty queue with room for so many records. It fails only where there is no memory for it.
    pub(crate) fn new(
        alloc: Global,
        client: u32,
        capacity: u32,
        _minded: Minded,
    ) -> Result<NoteQueue, AllocError>
        ensures { IfOk result (λ q. q ≡ new_queue client capacity) }
    {
        let Ok(ring) = NoteRing::new(alloc, capacity) else {
            return Err(AllocError);
        };
        Ok(NoteQueue {
            client,
            filter: None,
            ring,
        })
    }

    pub(crate) fn is_of(&self, client: u32) -> bool
        ensures { result ≡ (self.now.client == client) }
    {
        self.client == client
    }

    pub(crate) fn set_filter(&mut self, filter: Filter)
        ensures { self.new ≡ with_filter filter self.old }
    {
        self.filter = Some(filter);
    }

    /// A record comes, whatever the filter.
    pub(crate) fn post(&mut self, note: Record)
        requires { is_loss note ≡ false }
        ensures { self.new ≡ after_note note self.old }
    {
        self.ring.post(note);
    }

    /// A record comes to the filter.
    pub(crate) fn offer(&mut self, note: Record)
        requires { is_loss note ≡ false }
        ensures { self.new ≡ offered note self.old }
    {
        if passes(self.filter.as_ref(), &note) {
            self.post(note);
        }
    }

    /// Takes the longest front of records that fits the room, and answers its bytes: EAGAIN, ENOBUFS, ENOMEM.
    pub(crate) fn read(&mut self, alloc: Global, room: usize) -> Result<Body, Fault>
        ensures { ReadsQueue room self.old result self.new }
    {
        match self.ring.first() {
            Some(note) => {
                if !fits(&note, room) {
                    return Err(Fault::Refused(Errno::ENOBUFS));
                }
                let bytes = take_front(alloc, &mut self.ring, room)?;
                Ok(Body::new(bytes))
            }
            None => Err(Fault::Refused(Errno::EAGAIN)),
        }
    }
}

fn fits(note: &Record, room: usize) -> bool
    ensures { result ≡ nat_le (length (bytes_of note.now)) room }
{
    let encoded = encode(note);
    encoded.as_slice().len() <= room
}

/// Takes what fits the room from the front. All memory is there before the first record is taken.
fn take_front(alloc: Global, ring: &mut NoteRing, room: usize) -> Result<Vec<u8>, AllocError>
    ensures bytes { IfOk result (λ v. v.items ≡ bytes_of_all (front room ring.old.waiting)) }
    ensures bound { IfOk result (λ v. vec_len v ≤ 262140) }
    ensures rest { OnOk result
        (ring.new ≡ record ring.old { waiting = behind room ring.old.waiting }) }
    ensures same { OnErr result (ring.new ≡ ring.old) }
{
    let most = ring.byte_bound().min(room);
    let mut bytes = Vec::with_capacity(alloc, most)?;
    'taking: while let Some(note) = ring.first() {
        if !fits(&note, room - bytes.len()) {
            break;
        }
        append(&mut bytes, &note)?;
        let _ = ring.take();
    }
    Ok(bytes)
}

fn append(bytes: &mut Vec<u8>, note: &Record) -> Result<(), AllocError>
    ensures items { OnOk result (bytes.new.items ≡ bytes.old.items ++ bytes_of note.now) }
    ensures capacity { vec_capacity bytes.old ≤ vec_capacity bytes.new }
    ensures succeeds { vec_len bytes.old + length (bytes_of note.now) ≤ vec_capacity bytes.old
        → IsOk result }
{
    let encoded = encode(note);
    bytes.extend_from_slice(encoded.as_slice())?;
    Ok(())
}
