ghost use Rattle.std.specs.Prelude.{◌&&◌, ◌≡◌, true};
ghost use Rattle.krs_admission.specs.{Law.{IsLawful, IsShared, MayHave}, Rule.{has_tag_of, is_tag, knows_again}};
ghost use Rattle.krs_admission.specs.Rule.{is_in_joined, may_enter, may_have, number_of, place_above};
ghost use Rattle.krs_admission.specs.Rule.{place_found, place_of, place_tagged};

use crate::facts::{Arrival, Process, Session};
use crate::whose::{is_of, is_one, is_shared, stays};

/// A tag is one of these numbers.
const TAG_BASE: u64 = 0x4000_0000_0000_0000;

const TAG_END: u64 = 0x6000_0000_0000_0000;

/// Which session a process comes into.
#[derive(Clone, Copy)]
pub enum Place {
    /// None: what names its session keyring is EKEYREVOKED.
    Lost,
    /// None, so that it has the user-session keyring of its uid.
    UserSession,
    /// That which it holds.
    Held,
    /// That which its tag says.
    Tagged,
    /// That of the nearest process above.
    Above,
    /// That which it has joined itself: it may be of more uids than one, as a login is.
    Joined,
}

impl Place {
    /// As C has it.
    pub fn number(self) -> u32
        ensures { result ≡ number_of self }
    {
        match self {
            Place::Lost => 0,
            Place::UserSession => 1,
            Place::Held => 2,
            Place::Tagged => 3,
            Place::Above => 4,
            Place::Joined => 5,
        }
    }
}

pub(crate) fn may_have(process: &Process, session: &Session) -> bool
    ensures { result ≡ may_have process.now session.now }
{
    is_one(process) && is_of(process, session) && session.is_there
}

fn may_enter(process: &Process, session: &Session) -> bool
    ensures { result ≡ may_enter process.now session.now }
{
    may_have(process, session) && is_shared(session)
}

fn is_tag(number: u64) -> bool
    ensures { result ≡ is_tag number }
{
    TAG_BASE <= number && number < TAG_END
}

fn has_tag_of(arrival: &Arrival, session: &Session) -> bool
    ensures { result ≡ has_tag_of arrival.now session.now }
{
    arrival.has_limit && is_tag(arrival.soft) && session.tag == arrival.soft
}

/// The session of the nearest process above, where that is its own uid's; else that uid's user-session keyring, where
/// its tag could be read, and whether one is above.
#[tactic(auto, unfolding(crate::specs::Rule::place_above))]
fn place_above(arrival: &Arrival) -> Place
    ensures { result ≡ place_above arrival.now }
{
    if arrival.has_above && is_of(&arrival.process, &arrival.above) {
        if may_enter(&arrival.process, &arrival.above) {
            Place::Above
        } else {
            Place::Lost
        }
    } else if arrival.has_limit && arrival.knows_above {
        Place::UserSession
    } else {
        Place::Lost
    }
}

/// The session of its tag, where that is its own uid's. A tag that no session has is that of an ended one.
#[tactic(auto, unfolding(crate::specs::Rule::place_tagged))]
fn place_tagged(arrival: &Arrival) -> Place
    ensures { result ≡ place_tagged arrival.now }
{
    if !(arrival.has_tagged && has_tag_of(arrival, &arrival.tagged)) {
        Place::Lost
    } else if is_of(&arrival.process, &arrival.tagged) {
        if may_enter(&arrival.process, &arrival.tagged) {
            Place::Tagged
        } else {
            Place::Lost
        }
    } else {
        place_above(arrival)
    }
}

#[tactic(auto, unfolding(crate::specs::Rule::place_found))]
fn place_found(arrival: &Arrival) -> Place
    ensures { result ≡ place_found arrival.now }
{
    if !is_one(&arrival.process) {
        Place::Lost
    } else if arrival.has_held && is_of(&arrival.process, &arrival.held) {
        if may_have(&arrival.process, &arrival.held) {
            Place::Held
        } else {
            Place::Lost
        }
    } else if arrival.has_limit && is_tag(arrival.soft) {
        place_tagged(arrival)
    } else {
        place_above(arrival)
    }
}

/// What it has joined itself it is in while it asks as that session's user, and that is its real uid; to revoke it also
/// while that is its uid of the file system, as pam_keyinit(8) does.
fn is_in_joined(arrival: &Arrival) -> bool
    ensures { result ≡ is_in_joined arrival.now }
{
    arrival.has_joined
        && arrival.has_held
        && arrival.held.is_there
        && arrival.held.begun.uids.real == arrival.uid
        && stays(&arrival.process, arrival.uid, arrival.revokes)
}

#[tactic(auto, unfolding(crate::specs::Rule::place_of))]
fn place_of(arrival: &Arrival) -> Place
    ensures { result ≡ place_of arrival.now }
{
    if is_in_joined(arrival) {
        Place::Joined
    } else {
        place_found(arrival)
    }
}

/// Which session a process comes into: none but one that was begun as its own real uid, and only while all four of its
/// uids are that one and its program isn't set-uid to another; but for one that it has joined itself.
pub fn admit(arrival: &Arrival) -> Place
    ensures exact { result ≡ place_of arrival.now }
    ensures lawful { IsLawful arrival.now result }
{
    place_of(arrival)
}

fn has_its_tag(arrival: &Arrival) -> bool
    ensures { result ≡ knows_again arrival.now }
{
    arrival.has_held
        && has_tag_of(arrival, &arrival.held)
        && may_enter(&arrival.process, &arrival.held)
}

/// Whether it would come into the session that it holds by its tag, so that it need not be remembered.
pub fn knows_again(arrival: &Arrival) -> bool
    ensures exact { result ≡ knows_again arrival.now }
    ensures lawful { result ≡ true → MayHave arrival.now.process arrival.now.held × IsShared arrival.now.held }
{
    has_its_tag(arrival)
}

/// Whether a process whose limit is the tag of a session keeps that from its end.
pub fn keeps(process: &Process, session: &Session) -> bool
    ensures exact { result ≡ may_enter process.now session.now }
    ensures lawful { result ≡ true → MayHave process.now session.now × IsShared session.now }
{
    may_enter(process, session)
}
