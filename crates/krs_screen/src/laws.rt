ghost use Rattle.krs_screen.specs.Counting.{EachAskIsCounted, EachEpermIsCounted, EachIsAppended, EachIsTakenInTurn};
ghost use Rattle.krs_screen.specs.Counting.{EachRefusalGetsEperm, EachRefusalIsCounted, EachReplyIsCounted};
ghost use Rattle.krs_screen.specs.Reading.{EachFrontStays, EachHelloIsSeen, EachSafeHelloIsHarmless};
ghost use Rattle.krs_screen.specs.Reading.{GroupsCountForHellosAlone};
ghost use Rattle.krs_screen.specs.Run.{EachHelloOfARunIsHarmless, EachRunIsFaithful};

/// What a daemon reads as HELLO is seen as HELLO here, and names the same.
pub fn one_reading()
    ensures { EachHelloIsSeen }
{}

/// Each HELLO that a daemon reads from what is safe to pass names its peer, or nobody.
pub fn one_claim()
    ensures { EachSafeHelloIsHarmless }
{}

/// Asks that get EPERM are a queue.
pub fn one_queue()
    ensures appended { EachIsAppended }
    ensures taken { EachIsTakenInTurn }
{}

/// What stands at the front stays, whatever comes behind the bytes that are passed.
pub fn one_front()
    ensures { EachFrontStays }
{}

/// Asks and replies are counted so that a reply gets EPERM where its ask was made void, and only there.
pub fn one_numbering()
    ensures ask { EachAskIsCounted }
    ensures refusal { EachRefusalIsCounted }
    ensures reply { EachReplyIsCounted }
    ensures eperm { EachEpermIsCounted }
    ensures gets { EachRefusalGetsEperm }
{}

/// However a connection runs, in whatever pieces it comes: what is passed on to the daemon is what the client sent, ask
/// by ask, but for HELLOs that were made void, and a HELLO is made void where its peer may not make it, and only there;
/// what is passed on to the client is what the daemon answered, but for the statuses of the replies to those.
pub fn one_run()
    ensures { EachRunIsFaithful }
{}

/// Where `find_claim` finds none, a peer's groups needn't be known.
pub fn groups_count_for_hellos_alone()
    ensures { GroupsCountForHellosAlone }
{}

/// Each HELLO that a daemon reads from all that was passed on names the peer, or is one that it refuses whoever asks.
pub fn one_name()
    ensures { EachHelloOfARunIsHarmless }
{}
