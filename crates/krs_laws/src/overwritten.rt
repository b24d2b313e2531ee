//! That what UPDATE and ADD overwrote is told to nobody.
ghost use Rattle.krs_laws.specs.Overwritten.{AddsForget, UpdatesForget};

/// Whatever the payload was that an accepted UPDATE overwrote, the store that is left is the same, and so are all
/// replies from then on.
pub fn updates_forget_what_they_overwrite()
    ensures { UpdatesForget }
{}

/// The same of an accepted ADD, where a key of its type and description stands in the keyring and is given the new
/// payload.
pub fn adds_forget_what_they_overwrite()
    ensures { AddsForget }
{}
