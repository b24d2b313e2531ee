//! That no user of a desk reads another's keys, unless it was given them, nor changes them, nor is told of what they
//! hold.
ghost use Rattle.std.specs.Prelude.{Bool, false, List, ℕ};
ghost use Rattle.krs_types.specs.declared.event.Event.{Event};
ghost use Rattle.krs_model.specs.Confidentiality.{HasToItself, KeepsPrivate, LeavesAlone, ReadsAlone, TellsNoStranger};
ghost use Rattle.krs_model.specs.State.{State};
ghost use Rattle.krs_desk.specs.Confidentiality.{AreReadAlone};

use crate::seat::Seat;

impl Seat {
    /// No user reads another's keys, unless it was given them: in what a seat has seen, each accepted READ of a key
    /// that a uid has to itself, and has not given away, is in a context of that uid. So it is in every history of the
    /// desk. A uid may begin with none of the keys that the desk was opened with: new keys join them. keyrings(7),
    /// "Possession" and "Access rights".
    pub fn no_user_reads_anothers_keys(&self)
        ensures seen { AreReadAlone self.now.opening self.now.part.seen }
        ensures always { (uid : ℕ) (private : ℕ → Bool) → HasToItself uid private self.now.opening
            → ReadsAlone uid private self.now.opening }
        ensures kept { (uid : ℕ) (private last : ℕ → Bool) (events : List Event) (end : State)
            → HasToItself uid private self.now.opening → KeepsPrivate uid private self.now.opening events end last
            → HasToItself uid last end }
        ensures begins { (uid : ℕ) → HasToItself uid (λ k. false) self.now.opening }
    {
        let _token = &self.token;
    }

    /// In every history of the desk an ask in no context of a uid changes no key that the uid has to itself, and has
    /// not given away, nor drops one; only an invalidated key goes out of its links.
    pub fn others_neither_change_nor_drop_a_key(&self)
        ensures { (uid : ℕ) (private : ℕ → Bool) → HasToItself uid private self.now.opening
            → LeavesAlone uid private self.now.opening }
    {
        let _token = &self.token;
    }

    /// In every history of the desk a client that asks nothing in a context of a uid is told the same, whatever the
    /// payloads are of the keys that the uid has to itself in the end.
    pub fn nothing_flows_between_users(&self)
        ensures { (uid : ℕ) (private : ℕ → Bool) → HasToItself uid private self.now.opening
            → TellsNoStranger uid private self.now.opening }
    {
        let _token = &self.token;
    }
}
