//! krs_admission for C: `c/supervisor/krs_admission.h` declares it. No call requires anything of its arguments.
#![tactic(auto)]

ghost use Rattle.std.specs.Prelude.{◌≡◌, false, true};
ghost use Rattle.krs_admission.specs.Law.{BeginsForOthers, ComesLawfully, IsShared, IsStillIts, MayHave};
ghost use Rattle.krs_admission.specs.Rule.{asks_as, begins_alone, knows_again, may_be_given, may_enter, number_of};
ghost use Rattle.krs_admission.specs.Rule.{place_of, stays};

use krs_admission::{Arrival, Ids, Parent, Process, Session};

/// Which session a process comes into: 0 none, 1 none but the user-session keyring of its uid, 2 that which it holds,
/// 3 that of its tag, 4 that of the nearest process above, 5 that which it has joined itself. None but one that was
/// begun as its own real uid, and only while all four of its uids are that one and its program isn't set-uid to
/// another; but for one that it has joined itself.
#[unsafe(no_mangle)]
pub extern "C" fn krs_admission_c_admit(arrival: &Arrival) -> u32
    ensures exact { result ≡ number_of (place_of arrival.now) }
    ensures lawful { ComesLawfully arrival.now result }
{
    krs_admission::admit(arrival).number()
}

/// Whether it would come into the session that it holds by its tag, so that it need not be remembered.
#[unsafe(no_mangle)]
pub extern "C" fn krs_admission_c_knows_again(arrival: &Arrival) -> bool
    ensures exact { result ≡ knows_again arrival.now }
    ensures lawful { result ≡ true → MayHave arrival.now.process arrival.now.held × IsShared arrival.now.held }
{
    krs_admission::knows_again(arrival)
}

/// Whether a process whose limit is the tag of a session keeps that from its end.
#[unsafe(no_mangle)]
pub extern "C" fn krs_admission_c_keeps(process: &Process, session: &Session) -> bool
    ensures exact { result ≡ may_enter process.now session.now }
    ensures lawful { result ≡ true → MayHave process.now session.now × IsShared session.now }
{
    krs_admission::keeps(process, session)
}

/// Whether a process with these uids and gids may give its parent the session that it has.
#[unsafe(no_mangle)]
pub extern "C" fn krs_admission_c_may_be_given(
    parent: &Parent,
    uids: &Ids,
    gids: &Ids,
    session: &Session,
) -> bool
    ensures exact { result ≡ may_be_given parent.now uids.now gids.now session.now }
    ensures lawful { result ≡ true → MayHave parent.now.process session.now }
{
    krs_admission::may_be_given(parent, uids, gids, session)
}

/// The uid of uids, and the gid of gids, as which a call is asked.
#[unsafe(no_mangle)]
pub extern "C" fn krs_admission_c_asks_as(ids: &Ids, is_of_user: bool) -> u32
    ensures exact { result ≡ asks_as ids.now is_of_user }
    ensures user { is_of_user ≡ true → result ≡ ids.now.real }
    ensures access { is_of_user ≡ false → result ≡ ids.now.files }
{
    krs_admission::asks_as(ids, is_of_user)
}

/// Whether a process that has joined a session itself, as a user with this uid, is in it still: while that is its real
/// uid; where it revokes that session also while that is the uid of the file system.
#[unsafe(no_mangle)]
pub extern "C" fn krs_admission_c_stays(process: &Process, uid: u32, revokes: bool) -> bool
    ensures exact { result ≡ stays process.now uid revokes }
    ensures lawful { result ≡ true → IsStillIts process.now uid revokes }
{
    krs_admission::stays(process, uid, revokes)
}

/// Whether a session that a process begins is its alone, so that it is to have no name.
#[unsafe(no_mangle)]
pub extern "C" fn krs_admission_c_begins_alone(process: &Process, has_name: bool) -> bool
    ensures exact { result ≡ begins_alone process.now has_name }
    ensures lawful { result ≡ false → BeginsForOthers process.now has_name }
{
    krs_admission::begins_alone(process, has_name)
}
