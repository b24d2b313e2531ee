//! That a secret is told to those who read it, and to nobody else: noninterference, with READ as the one declassifier.
ghost use Rattle.std.specs.Prelude.{◌≡◌, Bool, Err, false, List, Ok, true, ℕ, ℤ};
ghost use Rattle.krs_types.specs.{Kind.paid, declared.ask.Op.Op};
ghost use Rattle.krs_types.specs.declared.{ask.Op.TheVariants.Invalidate, context.Context.Context, errno.Errno.Errno};
ghost use Rattle.krs_types.specs.declared.{event.Event.Event, kind.Kind.{Kind, TheVariants.User}, name.Name.Name};
ghost use Rattle.krs_model.specs.{Asks.{Adding.add, Changing.update}, Hiding.{blind, blind_ask, blind_event}};
ghost use Rattle.krs_model.specs.{Hiding.{blind_outcome, Hides, Hiding, hiding, IsBlinded}, History.IsLegal};
ghost use Rattle.krs_model.specs.{Possession.possessed, Revocation.{IsServed, Revokes}, Search.{found, requested}};
ghost use Rattle.krs_model.specs.Secrecy.{AreAskedAlike, Changes, DifferInReads, HasOthers, IsGone, KeepsSecrets};
ghost use Rattle.krs_model.specs.Secrecy.{putting, ReadsByRight, TellsByReadsAlone, TellsNobody};
ghost use Rattle.krs_model.specs.{State.State, Step.{outcome_of, Step}, Sweep.IsSweep, Table.IsBelow};

/// The payloads of any set of keys may be hidden: any two that a user key may have are then one, and those of other
/// keys are as they were.
pub fn payloads_of_any_keys_may_be_hidden()
    ensures lawful { (secret : ℕ → Bool) → Hides (hiding secret) }
    ensures alike { (secret : ℕ → Bool) (n : ℕ) (bytes other : List ℕ) → secret n ≡ true
        → paid User bytes ≡ Ok tt → paid User other ≡ Ok tt → hiding secret n bytes ≡ hiding secret n other }
    ensures others { (secret : ℕ → Bool) (n : ℕ) (bytes : List ℕ) → secret n ≡ false
        → hiding secret n bytes ≡ bytes }
{}

/// What is possessed, found and requested, and which keys a sweep leaves, does not hang on a payload.
pub fn no_payload_is_looked_at()
    ensures possessed { (hide : Hiding) (s : State) (c : Context) (k : ℕ)
        → possessed (blind hide s) c k ≡ possessed s c k }
    ensures found { (hide : Hiding) (s : State) (c : Context) (head : ℕ) (name : Name)
        → found (blind hide s) c head name ≡ found s c head name }
    ensures requested { (hide : Hiding) (s : State) (c : Context) (name : Name)
        → requested (blind hide s) c name ≡ requested s c name }
    ensures swept { (hide : Hiding) (old new : State) → IsSweep old new
        → IsSweep (blind hide old) (blind hide new) }
{}

/// An ask with its payload hidden, of a store with its payloads hidden, comes to what it came to, with the payloads
/// hidden: the state after it, and of the answers that of READ alone. Refusals are the same.
pub fn asks_hide_payloads()
    ensures { (hide : Hiding) (s : State) (client context : ℕ) (op : Op) → Hides hide
        → outcome_of (blind hide s) client context (blind_ask hide s client context op)
        ≡ blind_outcome hide s client context op (outcome_of s client context op) }
{}

/// An ADD or an UPDATE that is refused is refused with any payload that the same types take.
pub fn refusals_tell_no_payload()
    ensures added { (s : State) (client context : ℕ) (type_name desc payload other : List ℕ) (ring : ℤ)
        (error : Errno) → ((kind : Kind) → paid kind other ≡ paid kind payload)
        → add s client context type_name desc payload ring ≡ Err error
        → add s client context type_name desc other ring ≡ Err error }
    ensures updated { (s : State) (client context : ℕ) (id : ℤ) (payload other : List ℕ) (error : Errno)
        → ((kind : Kind) → paid kind other ≡ paid kind payload)
        → update s client context id payload ≡ Err error → update s client context id other ≡ Err error }
{}

/// A step with its payloads hidden is a step between the states with their payloads hidden: with what it drops, with
/// the records that it posts, and where memory runs out.
pub fn steps_hide_payloads()
    ensures { (hide : Hiding) (old new : State) (event : Event) → Hides hide → Step old event new
        → Step (blind hide old) (blind_event hide old event) (blind hide new) }
{}

/// Each legal history, with its payloads hidden, is a legal history of the states with their payloads hidden.
pub fn histories_hide_payloads()
    ensures some { (hide : Hiding) (start end : State) (events : List Event) → IsLegal start events end
        → (blinded : List Event) × IsBlinded hide start events end blinded }
    ensures legal { (hide : Hiding) (start end : State) (events blinded : List Event) → Hides hide
        → IsBlinded hide start events end blinded → IsLegal (blind hide start) blinded (blind hide end) }
{}

/// Two histories that are asked alike, but for hidden payloads, are answered alike, but for hidden payloads, and end
/// alike. All their replies are the same, but those to accepted READs.
pub fn hidden_payloads_flow_nowhere()
    ensures replies { (hide : Hiding) (a b : State) (events others : List Event) → Hides hide
        → (alike : AreAskedAlike hide a b events others) → alike.blinded ≡ alike.other_blinded }
    ensures reads { (hide : Hiding) (a b : State) (events others : List Event) → Hides hide
        → AreAskedAlike hide a b events others → DifferInReads events others }
    ensures ends { (hide : Hiding) (a b : State) (events others : List Event) → Hides hide
        → (alike : AreAskedAlike hide a b events others) → blind hide alike.end ≡ blind hide alike.other_end }
{}

/// What a client hasn't read, it can't tell from another secret: in two histories that are asked alike, but for the
/// payloads of keys that it doesn't read, all that it is told is the same.
pub fn unread_payloads_stay_secret()
    ensures { (start : State) → KeepsSecrets start }
{}

/// A client learns what its READs answer, and nothing else: in two histories that are asked alike, but for payloads,
/// those of keys that it reads too, it is told the same where its READs are answered the same.
pub fn clients_learn_by_reads_alone()
    ensures { (start : State) (events : List Event) → TellsByReadsAlone start events }
{}

/// Each legal history has others that are asked alike: with any other payloads in the place of hidden ones, as with any
/// that a user key may have in the place of those of any set of keys.
pub fn other_histories_are_asked_alike()
    ensures others { HasOthers }
    ensures any { (secret : ℕ → Bool) (payload : List ℕ) → paid User payload ≡ Ok tt
        → Changes (hiding secret) (putting secret payload) }
{}

/// Once a key is gone, its payload is told to nobody, whoever had read it: it is gone once it was revoked or
/// invalidated, and stays so.
pub fn payloads_of_gone_keys_are_told_to_nobody()
    ensures told { (start : State) (serial : ℕ) (events : List Event) → IsGone start serial
        → TellsNobody serial start events }
    ensures revoked { (old new : State) (event : Event) (serial : ℕ) → IsBelow old.keys old.next_serial
        → Step old event new → Revokes old event serial → IsGone new serial }
    ensures invalidated { (old new : State) (event : Event) (serial : ℕ) → IsBelow old.keys old.next_serial
        → Step old event new → IsServed old event Invalidate serial → IsGone new serial }
    ensures stays { (start end : State) (events : List Event) (serial : ℕ) → IsLegal start events end
        → IsGone start serial → IsGone end serial }
{}

/// Each key that an accepted READ names may be read by the context that asks, at that moment: keyctl(2), KEYCTL_READ.
pub fn keys_are_read_by_right()
    ensures { (start : State) → ReadsByRight start }
{}
