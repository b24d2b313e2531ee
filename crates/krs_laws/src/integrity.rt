//! That each change of a key is by right.
ghost use Rattle.krs_model.specs.{Sound.IsSound, State.State};
ghost use Rattle.krs_laws.specs.Integrity.{AllChangesAreByRight};

/// Whoever asks whatever, a key changes only by an ask that names it, of a context that has the right on it then: WRITE
/// for what it holds; SETATTR for owner, group, mask, timeout and closing, with what keyctl(2) wants besides; either
/// for REVOKE; and SEARCH on a key that the ask invalidates, which goes out of links. Owner, group, mask and timeout
/// become what is asked for. New keys are their maker's. A key that is linked anew is alive then and grants LINK, and a
/// key that goes was held by nothing any more.
pub fn each_change_is_by_right()
    ensures { (start : State) → IsSound start → AllChangesAreByRight start }
{}
