ghost use Rattle.std.specs.Prelude.{◌≡◌, Bool, is_some, ℕ};
ghost use Rattle.krs_model.specs.Table.{at};
ghost use Rattle.krs_keys.specs.Keys.{shown};

use crate::KeyTable;
use krs_types::Serial;

/// A set of keys: those of a table, or those that are watched.
pub trait KeySet {
    /// whether the key of this serial is one of them
    ghost has: { Self → ℕ → Bool };

    fn has(&self, key: Serial) -> bool
        ensures { result ≡ has self.now key };
}

impl KeySet for KeyTable {
    ghost has = { λ table k. is_some (at (shown table.keys) k) };

    #[tactic(auto, using(krs_model::proofs::Tables::Changes::at_map))]
    fn has(&self, key: Serial) -> bool {
        self.get(key).is_some()
    }
}
