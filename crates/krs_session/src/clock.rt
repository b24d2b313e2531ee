ghost use Rattle.std.specs.Prelude.{[], ◌++◌, ◌∷◌, List, ℕ};

/// Moments in seconds.
pub trait Clock {
    // From the first state to the second these are its answers, in order. A clock of the system tells nothing.
    ghost ticked: { Self → List ℕ → Self → Type 0 };

    // From the first state to the second it was asked anew, and answered so. A clock of the system tells nothing.
    ghost renewed: { Self → ℕ → Self → Type 0 } = { λ _ _ _. Unit {0} };

    fn now(&mut self) -> u64
        ensures ticked { ticked self.old (result ∷ []) self.new }
        ensures anew { renewed self.old result self.new };

    /// One answer more, shortly behind another: it may be that one again.
    fn again(&mut self) -> u64
        ensures { ticked self.old (result ∷ []) self.new }
    {
        self.now()
    }

    ghost starts: { (c : Self) → ticked c [] c };

    ghost joins: { (a b c : Self) (xs ys : List ℕ) → ticked a xs b → ticked b ys c → ticked a (xs ++ ys) c };
}
