//! That behind the guard no peer reads another's keys, nor changes them. A peer is who the kernel says is at the other
//! end of a connection: unix(7), SO_PEERCRED.
ghost use Rattle.krs_model.specs.State.{State};
ghost use Rattle.krs_guarded.specs.Guarded.{AreReadByTheirPeers, NoPeerActsAsAnother, NoPeerChangesAnothers};
ghost use Rattle.krs_guarded.specs.Guarded.{NoPeerReadsAnothers};

use krs_desk::Seat;

/// Behind the guard each context of a lane acts as a caller of its peer's uid, unless the peer is trusted to name any.
pub fn no_peer_acts_as_another()
    ensures { (start : State) → NoPeerActsAsAnother start }
{}

/// Behind the guard no peer reads another's keys: whoever reads a key that a uid has to itself, and has not given away,
/// is a peer of that uid, or one that is trusted to name any.
pub fn no_peer_reads_anothers_keys()
    ensures { (start : State) → NoPeerReadsAnothers start }
{}

/// Nor does any change such a key or drop it; only that a key which the ask invalidates goes out of the links of a
/// keyring.
pub fn no_peer_changes_anothers_keys()
    ensures { (start : State) → NoPeerChangesAnothers start }
{}

/// So it is of a desk, as the daemon's is one: in what a seat has seen, each accepted READ of such a key is of a peer
/// of that uid, and all three laws hold of every history of the desk, where it was opened empty.
pub fn no_peer_of_a_desk_reads_anothers_keys(seat: &Seat)
    ensures seen { AreReadByTheirPeers seat.now.opening seat.now.part.seen }
    ensures acts { NoPeerActsAsAnother seat.now.opening }
    ensures reads { NoPeerReadsAnothers seat.now.opening }
    ensures changes { NoPeerChangesAnothers seat.now.opening }
{
    seat.has_seen_one_history();
}
