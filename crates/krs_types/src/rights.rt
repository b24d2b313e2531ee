ghost use Rattle.std.specs.Prelude.{[], ⊤, ◌∷◌, ◌≡◌, codes};
ghost use Rattle.krs_types.specs.Rights.{allows};

use bitflags::{Flag, Flags, bitflag_items};

/// A set of rights on a key: keyctl(2), KEYCTL_SETPERM. A clause sees the bits as `.0`.
#[derive(Clone, Copy, PartialEq, Eq, Debug)]
pub struct Rights(u8);

bitflag_items! {
    impl Rights: u8 {
        const VIEW = 0x01;
        const READ = 0x02;
        const WRITE = 0x04;
        const SEARCH = 0x08;
        const LINK = 0x10;
        const SETATTR = 0x20;
    }
}

impl Flags for Rights {
    type Bits = u8;

    ghost exact = { ⊤ };

    ghost table = { (codes "VIEW", 1) ∷ (codes "READ", 2) ∷ (codes "WRITE", 4) ∷ (codes "SEARCH", 8)
        ∷ (codes "LINK", 16) ∷ (codes "SETATTR", 32) ∷ [] };

    ghost set_of = { λ p. p.0 };

    fn flags<'a>() -> &'a [Flag<Rights>] {
        Rights::FLAGS
    }

    fn bits(&self) -> u8 {
        self.0
    }

    fn from_bits_retain(bits: u8) -> Rights {
        Rights(bits)
    }
}

/// Which rights an ask needs of a key that its id names.
#[derive(Clone, Copy, Debug)]
pub enum Want {
    /// All of these.
    Granted(Rights),
    /// The first or the second.
    Either(Rights, Rights),
    /// READ, or possession with SEARCH: keyctl(2), KEYCTL_READ.
    ToRead,
}

impl Want {
    /// Whether these rights on a key, which is possessed or not, are what is wanted.
    pub fn allows(self, rights: Rights, possessed: bool) -> bool
        ensures { result ≡ allows self rights.0 possessed }
    {
        match self {
            Want::Granted(wanted) => rights.contains(wanted),
            Want::Either(first, second) => rights.contains(first) || rights.contains(second),
            Want::ToRead => {
                rights.contains(Rights::READ) || (possessed && rights.contains(Rights::SEARCH))
            }
        }
    }
}
