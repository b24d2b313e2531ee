//! The laws of the machine.
ghost use Rattle.krs_world.specs.Between.{KeepsCollectedBetween, KeepsPostedBetween, KeepsRealTimeBetween};
ghost use Rattle.krs_world.specs.Order.{KeepsPostedOrder, KeepsServedOrder, KeepsSessionOrder, OnlyGrows, SeesOneOrder};
ghost use Rattle.krs_world.specs.World.{StaysOne};

/// However many seats there are, and whatever steps they make in whatever order, there is one history of all calls.
pub fn there_is_one_history()
    ensures { StaysOne }
{}

/// The history only grows, and so does what each seat has seen.
pub fn the_history_only_grows()
    ensures { OnlyGrows }
{}

/// Of any two lists that seats have seen, one begins the other.
pub fn seats_see_one_order()
    ensures { SeesOneOrder }
{}

/// A call stands in the history behind all that its seat had seen before it, whether or not the seat keeps its turn:
/// session order.
pub fn session_order_is_kept()
    ensures put { KeepsSessionOrder }
    ensures served { KeepsServedOrder }
{}

/// A call that was posted stands in the history behind all that its seat had seen as it posted it, once its reply is
/// collected.
pub fn posted_calls_keep_session_order()
    ensures { KeepsPostedOrder }
{}

/// Real-time order, for callers that never met: of two moments of one history, a call that was asked after the first
/// stands behind all that any seat had seen at the first.
pub fn later_calls_stand_behind()
    ensures { KeepsRealTimeBetween }
{}

/// A posted call stands behind all that any seat had seen at a moment where it wasn't answered yet, as that at which it
/// was posted: once it is answered, and once its reply is collected.
pub fn later_answers_stand_behind()
    ensures answered { KeepsPostedBetween }
    ensures collected { KeepsCollectedBetween }
{}
