//! That the marks of asks are true.
ghost use Rattle.krs_model.specs.{Sound.IsSound, State.State};
ghost use Rattle.krs_laws.specs.Marks.{QuietAsksHaveNoNote, ShortAsksDropOneAtMost};

/// Whoever asks whatever, an ask that isn't long drops one key at most: never a keyring with what it alone held.
pub fn short_asks_drop_one_key_at_most()
    ensures { (start : State) → IsSound start → ShortAsksDropOneAtMost start }
{}

/// An ask that doesn't tell has no note.
pub fn quiet_asks_have_no_note()
    ensures { QuietAsksHaveNoNote }
{}
