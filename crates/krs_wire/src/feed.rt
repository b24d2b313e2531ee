ghost use Rattle.std.specs.Prelude.{[], ◌++◌, ◌≡◌, ◌≢◌, ◌≤◌, drop, IfErr, IfOk, IsSome, length, List, OnErr, vec_len};
ghost use Rattle.std.specs.Prelude.{ℕ};
ghost use Rattle.krs_wire.specs.{Feeding.{end_of, fault_of, Feeds, Refuses}, Frame.{bad, Frames, rest}};

use crate::asks::front_at;
use crate::reserve::Reserve;
use crate::room::make_room;
use crate::warned::{Nobody, Warned, warning_of};
use crate::{Framed, WireFault};
use krs_types::{move_wiped, wipe};
use std::alloc::Global;
use std::marker::Model;
use std::{mem, thread};

/// How many bytes may be left over and a piece behind them: the longest frame but for its last byte, its length, and as
/// much as is read at once.
const ROOM: usize = 69_635;

/// So often a piece is tried to be taken, and after so many tries one more quarter of the reserve is let go: an ask
/// that is served just now may have found memory before the warning, and takes it.
const TRIES: u32 = 1024;

const TRIES_A_QUARTER: u32 = 64;

/// Room for so many frames is kept from piece to piece.
const MOST_KEPT: usize = 128;

/// The reading end of a connection: pieces of a stream in, whole frames out. A contract sees how the stream ends so
/// far: in the beginning of a frame, or in a fault. It has a reserve of memory, which no contract sees. The beginning
/// of a frame is wiped where it is let go.
pub struct Feed {
    alloc: Global,
    left: Vec<u8>,
    fault: Option<WireFault>,
    reserve: Reserve,

    // Room for the frames of the next piece.
    room: Vec<Framed>,
}

impl Model for Feed {
    ghost use Rattle.std.specs.Prelude.{[], ◌≡◌};
    ghost use Rattle.krs_wire.specs.{Feeding.end_of, Frame.End};

    ghost Value = { End };

    ghost view = { λ f. end_of f.fault f.left.items };

    // No ask stays behind in the room for the next.
    ghost invariant = { λ f. f.room.items ≡ [] };
}

impl Drop for Feed {
    fn drop(self) {
        let Feed {
            alloc: _,
            left,
            fault: _,
            reserve: _,
            room: _,
        } = self;
        wipe(left);
    }
}

/// How many bytes the frames at the front of some bytes take, and the fault behind them.
#[derive(Clone, Copy)]
struct Cut {
    taken: usize,
    fault: Option<WireFault>,
}

/// Cuts bytes into frames. What stands in `frames` before means nothing.
fn cut_stream(alloc: Global, bytes: &[u8], frames: &mut Vec<Framed>) -> Result<Cut, WireFault>
    ensures frames { IfOk result
        (λ c. Frames bytes.now frames.new.items (end_of c.fault (drop c.taken bytes.now))) }
    ensures within { IfOk result (λ c. c.taken ≤ length bytes.now) }
    ensures memory { IfErr result (λ fault. fault ≡ WireFault.Memory) }
    ensures no_memory { IfOk result (λ c. c.fault ≢ Some WireFault.Memory) }
{
    frames.clear();
    let mut after = bytes;
    'frames: loop {
        match front_at(alloc, after) {
            Ok(None) => {
                return Ok(Cut {
                    taken: bytes.len() - after.len(),
                    fault: None,
                });
            }
            Ok(Some((framed, more))) => {
                frames.push(framed)?;
                after = more;
            }
            Err(fault) => {
                return match fault {
                    WireFault::Memory => Err(fault),
                    _ => Ok(Cut {
                        taken: bytes.len() - after.len(),
                        fault: Some(fault),
                    }),
                };
            }
        }
    }
}

/// Drops the front of bytes that end with this piece. What is left then mostly is an end of the piece, and is taken
/// from there.
fn drop_front(bytes: &mut Vec<u8>, count: usize, piece: &[u8])
    requires within { count ≤ vec_len bytes.old }
    requires ends { (front : List ℕ) × (bytes.old.items ≡ front ++ piece.now) }
    ensures { bytes.new.items ≡ drop count bytes.old.items }
{
    let left = bytes.len() - count;
    if left > piece.len() {
        bytes.drain(..count);
        return;
    }
    bytes.truncate(left);
    bytes.copy_from_slice(&piece[piece.len() - left..]);
}

/// Overwrites what stood behind the bytes with zeros, up to a length that they had.
#[tactic(auto, using(std::proofs::lemmas::List::take_all, std::proofs::lemmas::List::take_at))]
fn wipe_behind(bytes: &mut Vec<u8>, whole: usize)
    requires { vec_len bytes.old ≤ whole }
    ensures { bytes.new.items ≡ bytes.old.items }
{
    let left = bytes.len();
    if bytes.resize(whole, 0).is_ok() {
        bytes.truncate(left);
    }
}

/// Cuts a piece that nothing was left before, and keeps what is left of it.
fn take_alone(
    alloc: Global,
    left: &mut Vec<u8>,
    piece: &[u8],
    frames: &mut Vec<Framed>,
) -> Result<Option<WireFault>, WireFault>
    requires nothing { left.old.items ≡ [] }
    ensures frames { IfOk result (λ fault. Frames piece.now frames.new.items (end_of fault left.new.items)) }
    ensures memory { IfErr result (λ fault. fault ≡ WireFault.Memory) }
    ensures no_memory { IfOk result (λ fault. fault ≢ Some WireFault.Memory) }
    ensures stays { OnErr result (left.new.items ≡ []) }
{
    let cut = cut_stream(alloc, piece, frames)?;
    left.extend_from_slice(&piece[cut.taken..])?;
    Ok(cut.fault)
}

/// Takes a piece behind what was left, and keeps what is left then. Where there is no memory, nothing was taken.
fn take_once(
    alloc: Global,
    left: &mut Vec<u8>,
    piece: &[u8],
    frames: &mut Vec<Framed>,
) -> Result<Option<WireFault>, WireFault>
    ensures frames { IfOk result
        (λ fault. Frames (left.old.items ++ piece.now) frames.new.items (end_of fault left.new.items)) }
    ensures memory { IfErr result (λ fault. fault ≡ WireFault.Memory) }
    ensures no_memory { IfOk result (λ fault. fault ≢ Some WireFault.Memory) }
    ensures stays { OnErr result (left.new.items ≡ left.old.items) }
{
    if left.is_empty() {
        return take_alone(alloc, left, piece, frames);
    }
    let before = left.len();
    make_room(left, piece.len())?;
    left.extend_from_slice(piece)?;
    let whole = left.len();
    match cut_stream(alloc, left, frames) {
        Ok(cut) => {
            drop_front(left, cut.taken, piece);
            wipe_behind(left, whole);
            Ok(cut.fault)
        }
        Err(fault) => {
            left.truncate(before);
            wipe_behind(left, whole);
            Err(fault)
        }
    }
}

/// Takes a piece. Where there is no memory, the reserve is let go, a quarter at a time and with a warning before, and
/// it is tried again for a while: another thread may have been faster to take what was let go, and will mostly give it
/// back soon. It ends for want of memory only where nothing of the reserve is left.
fn take_in<A: Warned>(
    alloc: Global,
    left: &mut Vec<u8>,
    reserve: &mut Reserve,
    piece: &[u8],
    frames: &mut Vec<Framed>,
    warned: &mut A,
) -> Result<Option<WireFault>, WireFault>
    ensures frames { IfOk result
        (λ fault. Frames (left.old.items ++ piece.now) frames.new.items (end_of fault left.new.items)) }
    ensures memory { IfErr result (λ fault. fault ≡ WireFault.Memory) }
    ensures no_memory { IfOk result (λ fault. fault ≢ Some WireFault.Memory) }
    ensures held { OnErr result (reserve.new ≡ 0) }
{
    'tries: for tries in 0..TRIES {
        if let Ok(fault) = take_once(alloc, left, piece, frames) {
            return Ok(fault);
        }
        frames.clear();
        let warning = warning_of(warned);
        if tries % TRIES_A_QUARTER == 0 {
            reserve.let_go(warning);
        } else {
            thread::yield_now();
        }
    }
    reserve.let_go_whole(warning_of(warned));
    take_once(alloc, left, piece, frames)
}

impl Feed {
    /// It takes no memory, and has none in reserve.
    #[tactic(auto, unfolding(crate::specs::Frame::front_of))]
    pub fn new(alloc: Global) -> Feed
        ensures nothing { result ≡ rest [] }
        ensures empty { Frames [] [] result }
    {
        Feed {
            alloc,
            left: Vec::new(alloc),
            fault: None,
            reserve: Reserve::new(alloc),
            room: Vec::new(alloc),
        }
    }

    /// Takes what is lacking of the reserve and of the room for a frame, as far as there is memory, and lets go of what
    /// is more than that.
    pub fn restock(&mut self)
        ensures { self.new ≡ self.old }
    {
        if self.left.capacity() != ROOM {
            move_wiped(self.alloc, &mut self.left, ROOM);
        }
        if self.reserve.lacking() > 0 {
            self.reserve.take_back();
        }
    }

    /// How many bytes are lacking of the reserve, which has `RESERVE` where it is whole. What is lacking should be left
    /// by whoever answers what was fed, so that it can be taken back.
    pub fn lacking(&self) -> usize
        ensures { result ≤ 2097152 }
    {
        self.reserve.lacking()
    }

    /// The fault behind which nothing is read.
    pub fn fault(&self) -> Option<WireFault>
        ensures { result ≡ fault_of self.now }
    {
        self.fault
    }

    /// Takes the next piece of the stream, and answers the frames that are whole now. A fault behind them shows in
    /// `fault`, and is what every later piece is answered with. A piece that is refused for lack of memory is not
    /// taken, and the feed has failed.
    /// No program calls it; tests do.
    pub fn feed(&mut self, piece: &[u8]) -> Result<Vec<Framed>, WireFault>
        ensures frames { IfOk result (λ frames. Feeds self.old piece.now frames.items self.new) }
        ensures refused { IfErr result (Refuses self.old piece.now) }
        ensures failed { IfErr result (λ fault. self.new ≡ bad fault) }
        ensures no_memory { IfOk result (λ frames. fault_of self.new ≢ Some WireFault.Memory) }
        ensures at_once { IfOk result (λ frames. IsSome (fault_of self.new) → frames.items ≢ []) }
    {
        self.feed_warning(piece, &mut Nobody)
    }

    /// The same, with a warning before the reserve is let go.
    pub fn feed_warning<A: Warned>(
        &mut self,
        piece: &[u8],
        warned: &mut A,
    ) -> Result<Vec<Framed>, WireFault>
        ensures frames { IfOk result (λ frames. Feeds self.old piece.now frames.items self.new) }
        ensures refused { IfErr result (Refuses self.old piece.now) }
        ensures failed { IfErr result (λ fault. self.new ≡ bad fault) }
        ensures no_memory { IfOk result (λ frames. fault_of self.new ≢ Some WireFault.Memory) }
        ensures at_once { IfOk result (λ frames. IsSome (fault_of self.new) → frames.items ≢ []) }
    {
        if let Some(fault) = self.fault {
            return Err(fault);
        }
        let mut frames = mem::replace(&mut self.room, Vec::new(self.alloc));
        match take_in(
            self.alloc,
            &mut self.left,
            &mut self.reserve,
            piece,
            &mut frames,
            warned,
        ) {
            Ok(fault) => {
                self.fault = fault;
                if let Some(fault) = fault {
                    if frames.is_empty() {
                        return Err(fault);
                    }
                }
                Ok(frames)
            }
            Err(fault) => {
                self.fault = Some(fault);
                Err(fault)
            }
        }
    }

    /// Takes a list that `feed` answered back, whose room then serves the next piece. What still stands there is
    /// dropped.
    pub fn reuse(&mut self, frames: Vec<Framed>)
        ensures { self.new ≡ self.old }
    {
        self.room = frames;
        self.room.clear();
        self.room.shrink_to(MOST_KEPT);
    }
}
