//! That a store stays within its limits.
ghost use Rattle.std.specs.Prelude.{ℕ};
ghost use Rattle.krs_model.specs.{Sound.IsSound, State.{starting_at, State}};
ghost use Rattle.krs_laws.specs.Limits.{IsWithinLimits, StaysWithinLimits};

/// Whoever asks whatever, a client has at most 64 contexts, each of 32 groups at most. At most 256 queues are open.
/// None holds more records than it was asked for with, which are 4096 at most, and a filter has at most 16 entries. A
/// keyring links at most 65535 keys, a payload has at most 32767 bytes, and a description 4095.
pub fn limits_hold_in_every_history()
    ensures always { (start : State) → IsSound start → IsWithinLimits start → StaysWithinLimits start }
    ensures empty { (n : ℕ) → IsWithinLimits (starting_at n) }
{}
