ghost use Rattle.std.specs.Prelude.{◌&&◌, ◌==◌, ◌||◌, ◌≡◌, false, true};
ghost use Rattle.krs_admission.specs.Law.{BeginsForOthers, IsStillIts};
ghost use Rattle.krs_admission.specs.Rule.{are_all, asks_as, begins_alone, is_of, is_one, is_open, is_shared};
ghost use Rattle.krs_admission.specs.Rule.{is_told, stays};

use crate::facts::{Ids, Process, Session};

/// Stands for no uid; and so many uids there are.
const NO_UID: u32 = 4_294_967_295;

/// Whether this is the number of one user, and not of all who have none in the user namespace.
fn is_told(process: &Process, uid: u32) -> bool
    ensures { result ≡ is_told process.now uid }
{
    uid != NO_UID && (uid != process.unknown || process.mapped == NO_UID)
}

pub(crate) fn are_all(ids: &Ids, id: u32) -> bool
    ensures { result ≡ are_all ids.now id }
{
    ids.real == id && ids.effective == id && ids.saved == id && ids.files == id
}

/// Whether one user alone runs it: no other uid is its own, nor has another user executed it set-uid.
pub(crate) fn is_one(process: &Process) -> bool
    ensures { result ≡ is_one process.now }
{
    are_all(&process.uids, process.uids.real)
        && is_told(process, process.uids.real)
        && process.has_auxv
        && (!process.is_secure || process.starter == process.uids.real)
}

/// Whether this user could trace it, as far as is told. A set-uid program that it has executed it can't.
fn is_open(process: &Process, uid: u32) -> bool
    ensures { result ≡ is_open process.now uid }
{
    process.owner == process.uids.effective
        && process.has_auxv
        && (!process.is_secure || (is_told(process, process.starter) && process.starter != uid))
}

/// Whether a tag of the session gives no more than ptrace(2) gives its user: who began it could be traced then, and can
/// be now.
pub(crate) fn is_shared(session: &Session) -> bool
    ensures { result ≡ is_shared session.now }
{
    is_open(&session.begun, session.begun.uids.real)
        && (!session.has_beginner || is_open(&session.beginner, session.begun.uids.real))
}

/// Whether the session was begun as the real uid of the process.
pub(crate) fn is_of(process: &Process, session: &Session) -> bool
    ensures { result ≡ is_of process.now session.now }
{
    session.begun.uids.real == process.uids.real
}

/// The id as which a call is asked. The real ones own a new session keyring, and are those of the user keyring and of
/// the user-session keyring; access is judged by those of the file system.
pub fn asks_as(ids: &Ids, is_of_user: bool) -> u32
    ensures exact { result ≡ asks_as ids.now is_of_user }
    ensures user { is_of_user ≡ true → result ≡ ids.now.real }
    ensures access { is_of_user ≡ false → result ≡ ids.now.files }
{
    if is_of_user { ids.real } else { ids.files }
}

fn is_still_its(process: &Process, uid: u32, revokes: bool) -> bool
    ensures { result ≡ stays process.now uid revokes }
{
    process.uids.real == uid || (revokes && process.uids.files == uid)
}

/// Whether a process that has joined a session itself, as a user with this uid, is in it still. It may be of further
/// uids, as a login is, which revokes the session of who logs out with the user's effective uid alone: pam_keyinit(8).
pub fn stays(process: &Process, uid: u32, revokes: bool) -> bool
    ensures exact { result ≡ stays process.now uid revokes }
    ensures lawful { result ≡ true → IsStillIts process.now uid revokes }
{
    is_still_its(process, uid, revokes)
}

fn is_alone(process: &Process, has_name: bool) -> bool
    ensures { result ≡ begins_alone process.now has_name }
{
    let uid = process.uids.real;
    !(is_told(process, uid) && is_open(process, uid))
        && (!has_name || process.is_secure || !process.has_auxv)
}

/// Whether a session that a process begins is its alone. By a name the real user of a set-uid program could come in, or
/// link it for some asks.
pub fn begins_alone(process: &Process, has_name: bool) -> bool
    ensures exact { result ≡ begins_alone process.now has_name }
    ensures lawful { result ≡ false → BeginsForOthers process.now has_name }
{
    is_alone(process, has_name)
}
