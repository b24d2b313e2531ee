ghost use Rattle.std.specs.Prelude.{[], ◌++◌, ◌↔◌, ◌≡◌, ◌≢◌, Bool, Err, false, IsErr, IsSome, List, Ok, Result, Some};
ghost use Rattle.std.specs.Prelude.{true, ℕ, ℤ};
ghost use Rattle.krs_types.specs.{Perm.granted, declared.ask.Answer.Answer};
ghost use Rattle.krs_types.specs.declared.{ask.{Ask.Ask, Op.{Op, TheVariants.{Read, Revoke}}}, caller.Caller.Caller};
ghost use Rattle.krs_types.specs.declared.{context.Context.Context, errno.Errno.{Errno, TheVariants.ENOMEM}};
ghost use Rattle.krs_types.specs.declared.{event.Event.Event, name.Name.Name, rights.Want.Want};
ghost use Rattle.krs_model.specs.{Anchored.IsClosedChoice, Asks.Joining.join};
ghost use Rattle.krs_model.specs.{Asks.Watching.read_queue, History.{event_of, IsLegal}, Joined.JoinsLeast};
ghost use Rattle.krs_model.specs.Laws.{ClosesCycle, ComesByLinks, HasNoAnswer, in_turn, IsFault, IsFirstAnswer};
ghost use Rattle.krs_model.specs.{Laws.{IsOneByte, IsWithinReach, ReadsFront}, Lookup.{context_of, look_up, serial_of}};
ghost use Rattle.krs_model.specs.Notes.{Posting.{dropped_watches, Note, posts_of}, Stream.Move, Telling.ended_by};
ghost use Rattle.krs_model.specs.{Ordering.GoByQueue, Orderly.{AreOrderly, AreRising}};
ghost use Rattle.krs_model.specs.{Possession.{attached, possessed}, Queues.{Queues, queues_of}};
ghost use Rattle.krs_model.specs.{Reach.{closes, IsAcyclic, links_of_key_at}, Receiving.{GivesStreams, HasMoves}};
ghost use Rattle.krs_model.specs.{Revocation.{IsOfKey, StaysUnread}, Search.{found, requested, searcher_of}};
ghost use Rattle.krs_model.specs.{Sound.{AllLinked, IsSound}, State.{Key, Queue, raised, starting_at, State}};
ghost use Rattle.krs_model.specs.{Step.{outcome_of, Serves, Step}, Sweep.{IsSweep, IsSwept, PicksHeld}};
ghost use Rattle.krs_model.specs.{Table.{at, IsBelow, Rises, Table}, Usable.IsUsable};

/// A possessed key is an attached keyring, or is linked by a possessed keyring that may be searched: keyrings(7),
/// "Possession". Just the keys of the levels 0 to `search_depth` are possessed: profile, search depth.
pub fn possession_comes_by_links()
    ensures links { (s : State) (c : Context) (k : ℕ) → possessed s c k ≡ true → ComesByLinks s c k }
    ensures levels { (s : State) (c : Context) (k : ℕ) → (possessed s c k ≡ true) ↔ (IsWithinReach s c k) }
{}

/// Without possession the rights are those of one byte alone: the user's, the group's or the others'. keyrings(7),
/// "Access rights"; profile, group byte counts alone.
pub fn rights_come_from_one_byte()
    ensures { (mask uid gid : ℕ) (caller : Caller)
        → IsOneByte mask uid gid caller (granted mask uid gid caller false) }
{}

/// What a look-up for a right finds is the key that the id names, which was not revoked, has not expired, and grants
/// the right.
pub fn look_ups_find_usable_keys()
    ensures named { (s : State) (c : Context) (id : ℤ) (want : Want) (found : ℕ × Key)
        → look_up s c id want ≡ Ok found → serial_of s c id ≡ Ok found.0 }
    ensures usable { (s : State) (c : Context) (id : ℤ) (want : Want) (found : ℕ × Key)
        → look_up s c id want ≡ Ok found → IsUsable s c want found }
{}

/// A refusal changes nothing but the clock.
pub fn refusals_change_the_clock_alone()
    ensures { (old new : State) (event : Event)
        → Step old event new → IsErr event.reply → new ≡ raised old event.moment }
{}

/// A state has one sweep.
pub fn a_sweep_is_one_state()
    ensures { (old a b : State) → IsSweep old a → IsSweep old b → a ≡ b }
{}

/// A state that has been swept is its own sweep.
pub fn a_swept_state_stays()
    ensures { (s : State) → IsSwept s → IsSweep s s }
{}

/// What a sweep leaves has been swept.
pub fn a_sweep_sweeps()
    ensures { (old new : State) → IsSweep old new → IsSwept new }
{}

/// Where no keyring reaches itself, the closed choice is that of the held keys: what is left by counts of holders is
/// what attachments reach. keyrings(7), "Anchoring keys".
pub fn a_closed_choice_is_the_held_keys()
    ensures { (keys : Table Key) (attached : List ℕ) (kept : ℕ → Bool) → IsAcyclic (links_of_key_at keys)
        → (IsClosedChoice keys attached kept) ↔ (PicksHeld keys attached kept) }
{}

/// Each accepted REVOKE and each accepted READ names a key: keyctl(2).
pub fn revokes_and_reads_name_a_key()
    ensures revokes { IsOfKey Revoke }
    ensures reads { IsOfKey Read }
{}

/// No key is read once it was revoked, in any history of a store whose serials not given yet are in no use: keyctl(2),
/// KEYCTL_REVOKE.
pub fn revoked_keys_stay_unread()
    ensures { (start : State) → IsBelow start.keys start.next_serial → StaysUnread start }
{}

/// The test of LINK for cycles says what is reached: keyctl(2), KEYCTL_LINK, "EDEADLK".
pub fn cycles_are_reach()
    ensures { (keys : Table Key) (key ring : ℕ) → AllLinked keys → IsSome (at keys key)
        → (closes keys key ring ≡ true) ↔ (ClosesCycle (links_of_key_at keys) key ring) }
{}

/// A search finds the match that is alive and grants SEARCH at the least level, and in that level at the first place;
/// it refuses where there is none, with the first fault that a match calls for. keyrings(7), "Searching for keys";
/// profile, order of a search; profile, fault of a search.
pub fn searches_go_by_levels()
    ensures found { (s : State) (c : Context) (head : ℕ) (name : Name) (serial : ℕ)
        → found s c head name ≡ Ok serial → IsFirstAnswer (searcher_of s c) head name serial }
    ensures refused { (s : State) (c : Context) (head : ℕ) (name : Name) (error : Errno)
        → found s c head name ≡ Err error → HasNoAnswer (searcher_of s c) head name }
    ensures fault { (s : State) (c : Context) (head : ℕ) (name : Name) (error : Errno)
        → found s c head name ≡ Err error → IsFault (searcher_of s c) head name error }
{}

/// A request is a search from the thread, the process and the session keyring in turn: the first answer, else the
/// fault that weighs most. request_key(2); profile, three keyrings of a request.
pub fn requests_search_in_turn()
    ensures { (s : State) (c : Context) (name : Name)
        → requested s c name ≡ in_turn (λ head. found s c head name) (attached s c) }
{}

/// JOIN with a name takes the least serial of the keyrings that may be joined, else makes one: keyctl(2),
/// KEYCTL_JOIN_SESSION_KEYRING; profile, joining by name.
pub fn joins_take_the_least_serial()
    ensures { (s new : State) (client context : ℕ) (c : Context) (name : List ℕ) (answer : Answer)
        → Rises s.keys → name ≢ [] → context_of s client context ≡ Ok c
        → join s client context name ≡ Ok (new, answer) → JoinsLeast s context c name new answer }
{}

/// An empty store is sound.
pub fn an_empty_store_is_sound()
    ensures { (n : ℕ) → IsSound (starting_at n) }
{}

/// Each step leaves a sound store sound, whatever is asked and whether it is accepted.
pub fn each_step_keeps_a_store_sound()
    ensures { (old new : State) (event : Event) → IsSound old → Step old event new → IsSound new }
{}

/// Every history of a store that began empty ends in a sound store.
pub fn histories_end_sound()
    ensures { (n : ℕ) (events : List Event) (end : State) → IsLegal (starting_at n) events end → IsSound end }
{}

/// From a sound store each ask of any client at any moment has a step, whose reply is not ENOMEM: whatever is asked may
/// be answered.
pub fn each_ask_has_a_step()
    ensures { (old : State) (lane moment : ℕ) (ask : Ask) → IsSound old
        → (reply : Result Answer Errno) × (new : State) × Step old (event_of lane moment ask reply) new
        × (reply ≢ Err ENOMEM) }
{}

/// A reply leads to one state: what is asked at a moment and what it is answered with determine all that a store is
/// then. So do the state and what is asked of it determine the reply, but that memory may run out.
pub fn a_reply_leads_to_one_state()
    ensures step { (old a b : State) (event : Event) → Step old event a → Step old event b → a ≡ b }
    ensures reply { (old a b : State) (e f : Event) → e.lane ≡ f.lane → e.moment ≡ f.moment → e.ask ≡ f.ask
        → Step old e a → Step old f b → e.reply ≢ Err ENOMEM → f.reply ≢ Err ENOMEM → e.reply ≡ f.reply }
    ensures history { (start a b : State) (events : List Event)
        → IsLegal start events a → IsLegal start events b → a ≡ b }
{}

/// One note goes to its queues by rising number, and the removal records of an ask go out by rising key, then queue.
/// Profile, order of notes.
pub fn records_go_out_in_order()
    ensures notes { (q : Queues) (note : Note) → AreOrderly q → GoByQueue (posts_of q note) }
    ensures removals { (s mid swept : State) (client context : ℕ) (op : Op) (answer : Answer)
        → IsSound s → outcome_of s client context op ≡ Ok (mid, answer) → IsSweep mid swept
        → AreRising (ended_by s client context op ++ dropped_watches swept.keys mid.watches) }
{}

/// An accepted READ_QUEUE gives and takes the longest front of records that fits its room: profile, whole records.
pub fn a_read_takes_the_longest_front()
    ensures { (s new : State) (client number room : ℕ) (answer : Answer)
        → read_queue s client number room ≡ Ok (new, answer) → ReadsFront s client number room new answer }
{}

/// Every legal history from a sound store has, of each queue, one list of moves: the records that it calls for, and
/// those that the replies spell.
pub fn histories_move_queues()
    ensures some { (q : ℕ) (start : State) (events : List Event) (end : State)
        → IsSound start → IsLegal start events end → (moves : List Move) × HasMoves q start events moves end }
    ensures one { (q : ℕ) (start : State) (events : List Event) (a b : List Move) (end other : State)
        → IsSound start → HasMoves q start events a end → HasMoves q start events b other → a ≡ b }
    ensures legal { (q : ℕ) (start : State) (events : List Event) (moves : List Move) (end : State)
        → HasMoves q start events moves end → IsLegal start events end }
{}

/// Of a queue that was opened in a history and is still open, the records that READ_QUEUE's replies spell, followed by
/// those that wait, are its stream: the records that its watches and filter call for, with a loss after the last that
/// was kept wherever some were dropped. Of any queue that was opened, what was read begins that stream.
/// core-api/watch_queue.rst, "Watch Queue (Notification Output) API".
pub fn queues_give_their_streams()
    ensures { (start : State) → IsSound start → GivesStreams start }
{}
