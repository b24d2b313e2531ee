//! That an expired key is read by nobody any more.
ghost use Rattle.krs_model.specs.{Sound.IsSound, State.State};
ghost use Rattle.krs_laws.specs.Expired.{ExpiredStaysUnread};

/// Whatever comes before, between and after, no READ of a key is accepted once its time is over.
pub fn expired_keys_stay_unread()
    ensures { (start : State) → IsSound start → ExpiredStaysUnread start }
{}
