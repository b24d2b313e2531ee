// How a piece of the stream is cut into frames.
ghost use Rattle.std.specs.Prelude.{[], ◌≡◌, ◌≢◌, ◌⊎◌, All, IfErr, IfOk, IsSome};
ghost use Rattle.krs_wire.specs.{Feeding.{fault_of, Feeds, Refuses}, Frame.bad};

use crate::Keeper;
use crate::lack::Lack;
use krs_wire::{Feed, Framed, RESERVE, Warned, WireFault};
use std::marker::PhantomData;

/// What is told to be lacking where the store is to keep nothing, from no client, whatever memory there is:
/// `KEEP_NOTHING` of krs_watch. A session that lacks some of its reserve tells so while it has a piece asked, until it
/// has taken back what it can: the C library may have memory for the thread that does an ask, and none for this one.
pub(crate) const UNMET: u64 = 1 << 40;

/// Tells a desk that a session comes to lack its reserve, before others can take what is let go of it.
#[derive(Drop)]
struct Lacking<'a, S, H, D> {
    desk: &'a D,
    lack: &'a mut Lack,
    seat: PhantomData<S>,
    runtime: PhantomData<H>,
}

impl<S, H, D: Keeper<S, H>> Warned for Lacking<'_, S, H, D> {
    // The desk was told that more is lacking than there can be.
    ghost is_warned = { λ l. l.lack.now ≡ 1099511627776 };

    fn warn(&mut self) {
        self.lack.tell::<S, H, D>(self.desk, UNMET);
    }
}

/// Where memory is short already, this session may come to lack all of its reserve as it cuts a piece, and the store
/// leaves as much. What it lacks already it takes back first, where others have given memory back since.
fn claim_reserve<H, S, D: Keeper<S, H>>(desk: &D, feed: &mut Feed, lack: &mut Lack)
    ensures feed { feed.new ≡ feed.old }
    ensures told { (lack.new ≡ lack.old) ⊎ (lack.new ≡ 2097152) }
{
    if desk.is_short() {
        if feed.lacking() > 0 {
            feed.restock();
        }
        lack.tell::<S, H, D>(desk, RESERVE as u64);
    }
}

/// Cuts a piece of the stream, which is wiped then. Where there is memory by the reserve alone, the store keeps nothing
/// from then on.
pub(crate) fn cut<H, S, D: Keeper<S, H>>(
    desk: &D,
    feed: &mut Feed,
    lack: &mut Lack,
    piece: &mut [u8],
) -> Result<Vec<Framed>, WireFault>
    ensures frames { IfOk result (λ frames. Feeds feed.old piece.old frames.items feed.new) }
    ensures refused { IfErr result (Refuses feed.old piece.old) }
    ensures wiped { All (λ b. b ≡ 0) piece.new }
    ensures failed { IfErr result (λ fault. feed.new ≡ bad fault) }
    ensures no_memory { IfOk result (λ frames. fault_of feed.new ≢ Some WireFault.Memory) }
    ensures at_once { IfOk result (λ frames. IsSome (fault_of feed.new) → frames.items ≢ []) }
{
    claim_reserve::<H, S, D>(desk, feed, lack);
    let mut lacking = Lacking {
        desk,
        lack,
        seat: PhantomData::<S>,
        runtime: PhantomData::<H>,
    };
    let frames = feed.feed_warning(piece, &mut lacking);
    piece.fill(0);
    frames
}
