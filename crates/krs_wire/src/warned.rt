/// Whoever wants to know that a feed is about to let go of its reserve: others should take no memory then.
pub trait Warned {
    // It knows.
    ghost is_warned: { Self → Type 0 };

    /// The reserve is let go now. No law says what comes of it.
    fn warn(&mut self)
        ensures { is_warned self.new };
}

/// Nobody wants to know.
#[derive(Drop)]
pub(crate) struct Nobody;

impl Warned for Nobody {
    ghost is_warned = { λ nobody. Unit {0} };

    fn warn(&mut self) {}
}

/// That others were warned, which only `warning_of` gives: without one no reserve is let go.
#[derive(Drop)]
pub(crate) struct Warning {
    _others: (),
}

/// Warns them.
pub(crate) fn warning_of<A: Warned>(warned: &mut A) -> Warning
    ensures { A.is_warned warned.new }
{
    warned.warn();
    Warning { _others: () }
}
