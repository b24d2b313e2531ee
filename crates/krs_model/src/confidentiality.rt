//! That no user reads another's keys, unless it was given them, nor changes them, nor is told of what they hold.
ghost use Rattle.std.specs.Prelude.{◌≡◌, ◌≢◌, Bool, false, List, Some, true, ℕ};
ghost use Rattle.krs_types.specs.declared.{context.Context.Context, event.Event.Event};
ghost use Rattle.krs_model.specs.Access.{rights_on};
ghost use Rattle.krs_model.specs.Confidentiality.{AreUnchanged, GivesAway, HasToItself, IsAskedBy, IsFor, IsGivenAway};
ghost use Rattle.krs_model.specs.Confidentiality.{KeepsPrivate, LeavesAlone, MakesForItself, may_make, ReadsAlone};
ghost use Rattle.krs_model.specs.{Confidentiality.{TellsNoStranger, with_made}, Possession.possessed, Sound.IsSound};
ghost use Rattle.krs_model.specs.{State.{Key, raised, starting_at, State}, Step.Step, Table.at};

/// Whatever there is in a store, a uid may begin with none of the keys to itself.
pub fn a_uid_begins_without_keys()
    ensures { (uid : ℕ) (s : State) → HasToItself uid (λ k. false) s }
{}

/// Whoever asks whatever, the keys that a uid has to itself it has to itself after the ask, unless an ask in a context
/// of the uid gave one away: by SETPERM, CHOWN, LINK or MOVE, or by SEARCH or REQUEST with a destination.
pub fn only_its_user_gives_a_key_away()
    ensures { (uid : ℕ) (private : ℕ → Bool) (old new : State) (event : Event) → IsSound old
        → HasToItself uid private old
        → Step old event new → ¬ GivesAway uid private old event new → HasToItself uid private new }
{}

/// The keys that an ask for a uid makes it has to itself, with those that it had, unless one of them is not its own or
/// is linked from elsewhere.
pub fn new_keys_are_its_users_alone()
    ensures { (uid : ℕ) (private : ℕ → Bool) (old new : State) (event : Event) → IsSound old
        → HasToItself uid private old
        → Step old event new → may_make event.ask.op ≡ true
        → IsFor uid old event.lane event.ask.context event.ask.op
        → ¬ IsGivenAway uid (with_made private old new) new.keys → HasToItself uid (with_made private old new) new }
{}

/// So it has the keys that HELLO, GET_ID and JOIN make for it, and those that ADD makes for it in a keyring that it has
/// to itself, with no further condition; and what it has to itself is not given away.
pub fn keys_made_within_are_not_given_away()
    ensures made { (uid : ℕ) (private : ℕ → Bool) (old new : State) (event : Event) → IsSound old
        → HasToItself uid private old → Step old event new
        → MakesForItself uid private (raised old event.moment) event.lane event.ask.context event.ask.op
        → HasToItself uid (with_made private old new) new }
    ensures kept { (uid : ℕ) (private : ℕ → Bool) (s : State) → HasToItself uid private s
        → ¬ IsGivenAway uid private s.keys }
{}

/// On a key that a uid has to itself no context of another uid has any right, uid 0's included, nor possesses it: it
/// may not view, read, write, find, link or own it.
pub fn others_have_no_right()
    ensures { (uid : ℕ) (private : ℕ → Bool) (s : State) (number k : ℕ) (c : Context) (key : Key)
        → HasToItself uid private s
        → at s.contexts number ≡ Some c → c.caller.uid ≢ uid → private k ≡ true → at s.keys k ≡ Some key
        → (possessed s c k ≡ false) × (rights_on key c.caller (possessed s c k) ≡ 0) }
{}

/// Nor does an ask in no context of the uid change such a key or drop it: it stays, as it was, but that a key which the
/// ask invalidates goes out of the links of a keyring. LEAVE is in all contexts of its client.
pub fn others_neither_change_nor_drop_a_key()
    ensures step { (uid : ℕ) (private : ℕ → Bool) (old new : State) (event : Event) → IsSound old
        → HasToItself uid private old → Step old event new → ¬ IsAskedBy uid old event
        → AreUnchanged private old event new }
    ensures always { (uid : ℕ) (private : ℕ → Bool) (start : State) → IsSound start → HasToItself uid private start
        → LeavesAlone uid private start }
{}

/// No user reads another's keys, unless it was given them: keyrings(7), "Possession" and "Access rights".
pub fn no_user_reads_anothers_keys()
    ensures sound { (uid : ℕ) (private : ℕ → Bool) (start : State) → IsSound start → HasToItself uid private start
        → ReadsAlone uid private start }
    ensures kept { (uid : ℕ) (private last : ℕ → Bool) (start end : State) (events : List Event) → IsSound start
        → HasToItself uid private start → KeepsPrivate uid private start events end last → HasToItself uid last end }
    ensures empty { (uid n : ℕ) → ReadsAlone uid (λ k. false) (starting_at n) }
{}

/// Between users nothing flows: a client that asks nothing in a context of a uid is told the same, whatever the
/// payloads are of the keys that the uid has to itself.
pub fn nothing_flows_between_users()
    ensures { (uid : ℕ) (private : ℕ → Bool) (start : State) → IsSound start → HasToItself uid private start
        → TellsNoStranger uid private start }
{}
