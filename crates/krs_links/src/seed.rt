ghost use Rattle.std.specs.Prelude.{◌↔◌, ◌≡◌, IsTrue};
ghost use Rattle.krs_types.specs.Kind.{kind_number};
ghost use Rattle.krs_links.specs.Seeded.{digest, first_hasher, name_digest, random_seed};

use krs_types::Name;
use std::hash::{BuildHasher, DefaultHasher, Hash, Hasher, RandomState};

/// What the hashes of names begin with: two words, which SipHash takes in before anything else. Strangers choose the
/// names, and who knows the seed can choose many of one hash, which makes look-ups slow. No contract of a look-up sees
/// it.
#[derive(Clone, Copy)]
pub struct Seed {
    first: u64,
    second: u64,
}

impl Seed {
    /// The same each time.
    pub const FIXED: Seed = Seed {
        first: 0,
        second: 0,
    };

    /// Of the system's random source: two words that SipHash makes under a random key of 128 bits.
    pub fn random(state: RandomState) -> Seed
        ensures { result ≡ random_seed state }
    {
        Seed {
            first: state.hash_one(0u8),
            second: state.hash_one(1u8),
        }
    }

    /// Whether it is that seed, from which all hashes alike.
    pub fn is(&self, other: &Seed) -> bool
        ensures { IsTrue result ↔ (self.now ≡ other.now) }
    {
        self.first == other.first && self.second == other.second
    }

    /// What some bytes hash to from this seed: the same each time.
    pub fn digest(&self, bytes: &[u8]) -> u64
        ensures { result ≡ digest self.now bytes.now }
    {
        let mut hasher = self.build_hasher();
        hasher.write(bytes);
        hasher.finish()
    }

    /// What a name hashes to from this seed: its description and its type.
    #[tactic(auto, unfolding(crate::specs::Seeded::name_digest))]
    pub fn digest_of(&self, name: &Name) -> u64
        ensures { result ≡ name_digest self.now name.now }
    {
        let mut hasher = self.build_hasher();
        name.hash(&mut hasher);
        hasher.finish()
    }
}

impl BuildHasher for Seed {
    type Hasher = DefaultHasher;

    ghost build_hasher = { first_hasher };

    fn build_hasher(&self) -> DefaultHasher {
        let mut hasher = DefaultHasher::new();
        hasher.write_u64(self.first);
        hasher.write_u64(self.second);
        hasher
    }
}
