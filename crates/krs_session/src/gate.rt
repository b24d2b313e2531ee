/// Where a session stands with an ask.
#[derive(Clone, Copy, Debug, PartialEq, Eq)]
pub enum Point {
    /// Before the ask goes to the desk.
    Asked,
    /// After its reply is there.
    Answered,
}

/// What a session passes with each ask, LEAVE too. It may hold the session there.
pub trait Gate {
    fn pass(&self, lane: u32, at: Point);

    /// Whether it may. A session lets no other wait for calls of its seat while it passes such a gate.
    fn may_hold(&self) -> bool {
        true
    }
}
