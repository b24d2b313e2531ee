ghost use Rattle.std.specs.{Prelude.{◌==◌, ◌≡◌, ◌≤◌, length, OnOk}, List.list_any};
ghost use Rattle.krs_types.specs.Kind.{begins_with, checked, described, described_as, is_bad_text, kind_name};
ghost use Rattle.krs_types.specs.Kind.{kind_named, kind_number, paid, row_of, same_kind};

use crate::{Errno, Perm};

/// How long a type's name may be: profile, known types.
const MAX_TYPE_NAME: usize = 31;

/// How long a description may be: add_key(2), "EINVAL".
const MAX_DESCRIPTION: usize = 4095;

/// How long a payload may be: keyrings(7), "user" and "logon".
const MAX_PAYLOAD: usize = 32767;

/// The type of a key: keyrings(7), "Key types".
#[derive(Clone, Copy, Debug, PartialEq, Eq)]
pub enum Kind {
    User,
    Logon,
    Keyring,
}

/// Which descriptions a type takes, of those that any key may have.
#[derive(Clone, Copy)]
pub enum DescRule {
    AnyText,
    /// A service stands before the first colon: profile, logon prefix.
    WithService,
    /// It doesn't begin with a dot: add_key(2), "EPERM".
    WithoutDot,
}

/// Which payloads a type takes: keyrings(7), "Key types".
#[derive(Clone, Copy)]
pub enum PayloadRule {
    SomeBytes,
    NoBytes,
}

/// What READ tells of a key.
#[derive(Clone, Copy)]
pub enum Told {
    ItsPayload,
    ItsLinks,
    Never,
}

/// The types, a row each: the variant, its number, its name, which descriptions and payloads it takes, the mask of a
/// new key (profile, masks of new keys), what READ tells of a key, and whether UPDATE takes one.
macro_rules! kinds {
    ($mark:ident, $of:expr) => {
        rows!($mark, $of;
            User (0 "user" AnyText SomeBytes OF_KEY ItsPayload true);
            Logon (1 "logon" WithService SomeBytes OF_LOGON Never true);
            Keyring (2 "keyring" WithoutDot NoBytes OF_KEY ItsLinks false);
        )
    };
}

macro_rules! rows {
    (kind, $of:expr; $($kind:ident ($number:literal $name:literal $($mark:tt)*);)*) => {
        $(if $of == $name.as_bytes() { Ok(Kind::$kind) } else)* { Err(Errno::ENODEV) }
    };
    ($mark:ident, $of:expr; $($kind:ident $row:tt;)*) => {
        match $of {
            $(Kind::$kind => mark!($mark $row),)*
        }
    };
}

macro_rules! mark {
    (number ($mark:literal $($later:tt)*)) => { $mark };
    (name ($number:tt $mark:literal $($later:tt)*)) => { $mark };
    (desc ($number:tt $name:tt $mark:ident $($later:tt)*)) => { DescRule::$mark };
    (payload ($number:tt $name:tt $desc:tt $mark:ident $($later:tt)*)) => { PayloadRule::$mark };
    (perm ($number:tt $name:tt $desc:tt $payload:tt $mark:ident $($later:tt)*)) => { Perm::$mark };
    (told ($number:tt $name:tt $desc:tt $payload:tt $perm:tt $mark:ident $updatable:tt)) => { Told::$mark };
    (updatable ($number:tt $name:tt $desc:tt $payload:tt $perm:tt $told:tt $mark:literal)) => { $mark };
}

impl Kind {
    /// The kind of a type's name: EINVAL where it is empty, longer than 31 bytes or has a byte 0, EPERM where it
    /// begins with a dot, ENODEV where there is no such type. add_key(2); profile, known types.
    pub fn named(name: &[u8]) -> Result<Kind, Errno>
        ensures { result ≡ kind_named name.now }
    {
        if is_bad_text(MAX_TYPE_NAME, name) {
            return Err(Errno::EINVAL);
        }
        if begins(name, b'.') {
            return Err(Errno::EPERM);
        }
        kinds!(kind, name)
    }

    /// The type's name.
    pub fn name(self) -> &'static str
        ensures { result.now ≡ kind_name self }
    {
        kinds!(name, self)
    }

    /// A number of its own for each kind.
    pub fn number(self) -> u8
        ensures { result ≡ kind_number self }
    {
        kinds!(number, self)
    }

    /// The mask of a key that ADD makes.
    pub fn first_perm(self) -> Perm
        ensures { result ≡ (row_of self).perm }
    {
        kinds!(perm, self)
    }

    /// What READ tells of a key.
    pub fn told(self) -> Told
        ensures { result ≡ (row_of self).told }
    {
        kinds!(told, self)
    }

    /// Whether UPDATE takes a key, and ADD a match: KEYCTL_UPDATE, "EOPNOTSUPP".
    pub fn is_updatable(self) -> bool
        ensures { result ≡ (row_of self).updatable }
    {
        kinds!(updatable, self)
    }

    /// Whether the two are one kind.
    pub fn is(self, other: Kind) -> bool
        ensures { result ≡ same_kind self other }
    {
        self.number() == other.number()
    }

    /// Whether a key of this kind can be made with this description and payload. In this order: EINVAL of the
    /// description's length and bytes, EPERM of a keyring's that begins with a dot, EINVAL of a logon key's that has
    /// no service before its first colon, EINVAL of the payload. add_key(2), keyrings(7); profile, logon prefix.
    pub fn check(self, desc: &[u8], payload: &[u8]) -> Result<(), Errno>
        ensures value { result ≡ checked self desc.now payload.now }
        ensures desc { OnOk result (length desc.now ≤ 4095) }
        ensures payload { OnOk result (length payload.now ≤ 32767) }
    {
        check_description(desc)?;
        self.check_own_description(desc)?;
        self.check_payload(payload)
    }

    fn desc_rule(self) -> DescRule
        ensures { result ≡ (row_of self).desc }
    {
        kinds!(desc, self)
    }

    fn check_own_description(self, desc: &[u8]) -> Result<(), Errno>
        ensures { result ≡ described_as self desc.now }
    {
        match self.desc_rule() {
            DescRule::AnyText => Ok(()),
            DescRule::WithService if !has(desc, b':') || begins(desc, b':') => Err(Errno::EINVAL),
            DescRule::WithService => Ok(()),
            DescRule::WithoutDot if begins(desc, b'.') => Err(Errno::EPERM),
            DescRule::WithoutDot => Ok(()),
        }
    }

    fn payload_rule(self) -> PayloadRule
        ensures { result ≡ (row_of self).payload }
    {
        kinds!(payload, self)
    }

    /// Whether a payload may be that of a key of this kind: EINVAL.
    pub fn check_payload(self, payload: &[u8]) -> Result<(), Errno>
        ensures value { result ≡ paid self payload.now }
        ensures bound { OnOk result (length payload.now ≤ 32767) }
    {
        let fits = match self.payload_rule() {
            PayloadRule::SomeBytes => !payload.is_empty() && payload.len() <= MAX_PAYLOAD,
            PayloadRule::NoBytes => payload.is_empty(),
        };
        if fits { Ok(()) } else { Err(Errno::EINVAL) }
    }
}

/// Whether a description may be a key's: EINVAL where it is empty, longer than 4095 bytes or has a byte 0. Profile,
/// empty description.
pub fn check_description(desc: &[u8]) -> Result<(), Errno>
    ensures value { result ≡ described desc.now }
    ensures bound { OnOk result (length desc.now ≤ 4095) }
{
    if is_bad_text(MAX_DESCRIPTION, desc) {
        return Err(Errno::EINVAL);
    }
    Ok(())
}

fn is_bad_text(longest: usize, text: &[u8]) -> bool
    ensures { result ≡ is_bad_text longest text.now }
{
    text.is_empty() || text.len() > longest || has(text, 0)
}

/// Whether a byte is among these.
fn has(bytes: &[u8], byte: u8) -> bool
    ensures { result ≡ list_any (λ b. b == byte) bytes.now }
{
    bytes.iter().any(|b| *b == byte)
}

fn begins(text: &[u8], byte: u8) -> bool
    ensures { result ≡ begins_with text.now byte }
{
    !text.is_empty() && text[0] == byte
}
