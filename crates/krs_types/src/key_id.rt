ghost use Rattle.std.specs.Prelude.{◌≡◌};
ghost use Rattle.krs_types.specs.KeyId.{key_id_of};

use crate::Errno;
use std::marker::Model;

/// The number of a key, which no other key gets after it: keyrings(7), "Serial number".
#[derive(Clone, Copy, Debug, PartialEq, Eq)]
pub struct Serial {
    number: u32,
}

impl Model for Serial {
    ghost use Rattle.std.specs.Prelude.{ℕ};

    ghost Value = { ℕ };

    ghost view = { λ s. s.number };

    ghost inverse = { λ n. record { number = n } };
}

impl Serial {
    pub fn new(number: u32) -> Serial
        ensures { result ≡ number }
    {
        Serial { number }
    }

    pub fn number(self) -> u32
        ensures { result ≡ self }
    {
        self.number
    }
}

/// What an ask's key id names: keyctl(2), KEYCTL_GET_KEYRING_ID.
#[derive(Clone, Copy, Debug, PartialEq, Eq)]
pub enum KeyId {
    Serial(Serial),
    Thread,
    Process,
    Session,
    User,
    UserSession,
}

impl KeyId {
    /// What a key id names: EINVAL for 0 and below -5. Profile, known special ids.
    pub fn from_i32(id: i32) -> Result<KeyId, Errno>
        ensures { result ≡ key_id_of id }
    {
        match id {
            1.. => Ok(KeyId::Serial(Serial::new(id as u32))),
            -1 => Ok(KeyId::Thread),
            -2 => Ok(KeyId::Process),
            -3 => Ok(KeyId::Session),
            -4 => Ok(KeyId::User),
            -5 => Ok(KeyId::UserSession),
            _ => Err(Errno::EINVAL),
        }
    }
}
