ghost use Rattle.std.specs.Prelude.{◌≡◌, true};
ghost use Rattle.krs_admission.specs.{Law.MayHave, Rule.may_be_given};

use crate::admitting::may_have;
use crate::facts::{Ids, Process, Session};
use crate::whose::{are_all, is_of};

/// Of a process whose calls a seccomp filter judges.
const SECCOMP_MODE_FILTER: u32 = 2;

/// The parent of a process that gives it its session.
#[repr(C)]
#[derive(Clone, Copy)]
pub struct Parent {
    pub process: Process,
    pub gids: Ids,
    /// Its process ID.
    pub number: u32,
    /// That of who serves it.
    pub supervisor: u32,
    pub threads: u32,
    pub seccomp: u32,
    /// The session that it has.
    pub held: Session,
    pub has_held: bool,
}

/// The conditions of keyctl_session_to_parent(3), and the law's.
fn is_its_user(parent: &Parent, uids: &Ids, gids: &Ids, session: &Session) -> bool
    ensures { result ≡ may_be_given parent.now uids.now gids.now session.now }
{
    parent.number > 1
        && parent.number != parent.supervisor
        && parent.threads == 1
        && parent.seccomp == SECCOMP_MODE_FILTER
        && may_have(&parent.process, session)
        && parent.process.uids.real == uids.effective
        && are_all(&parent.gids, gids.effective)
        && (!parent.has_held || is_of(&parent.process, &parent.held))
}

/// Whether a process with these uids and gids may give its parent the session that it has.
pub fn may_be_given(parent: &Parent, uids: &Ids, gids: &Ids, session: &Session) -> bool
    ensures exact { result ≡ may_be_given parent.now uids.now gids.now session.now }
    ensures lawful { result ≡ true → MayHave parent.now.process session.now }
{
    is_its_user(parent, uids, gids, session)
}
