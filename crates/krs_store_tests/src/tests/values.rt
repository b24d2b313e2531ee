use bitflags::Flags;
use krs_types::{Caller, Errno, Groups, KeyId, Kind, Perm, Rights, Serial, Want};
use std::alloc::{AllocError, Global};
use std::test::Fail;

/// errno(3) on Linux, x86-64, and behind those some numbers of no error that a store gives.
#[rattlefmt::skip]
const ERRORS: [(&str, u32); 27] = [
    ("EPERM", 1), ("ENOENT", 2), ("ESRCH", 3), ("EBADF", 9), ("EAGAIN", 11), ("ENOMEM", 12),
    ("EACCES", 13), ("EBUSY", 16), ("EEXIST", 17), ("ENODEV", 19), ("ENOTDIR", 20), ("EINVAL", 22),
    ("ENFILE", 23), ("ENOSPC", 28), ("EDEADLK", 35), ("ELOOP", 40), ("EBADSLT", 57),
    ("EOPNOTSUPP", 95), ("ENOBUFS", 105), ("ENOKEY", 126), ("EKEYEXPIRED", 127),
    ("EKEYREVOKED", 128),
    ("", 0), ("", 7), ("", 18), ("", 125), ("", 129),
];

/// The name of the error that has a number, and no text where none has it.
fn error_name(number: u32) -> &'static str {
    match Errno::from_number(number) {
        Some(errno) if errno.number() == number => errno.name(),
        _ => "",
    }
}

#[test]
fn errors_have_their_numbers_and_names(rt: HostRuntime) {
    for (name, number) in &ERRORS {
        assert!(rt; error_name(*number) == *name, "{number}");
    }
}

/// A key's type name, description and payload, and its kind where all three are taken.
type Row<'a> = (&'a [u8], &'a [u8], &'a [u8], Result<Kind, Errno>);

#[rattlefmt::skip]
const KEYS: [Row<'static>; 16] = [
    (b"", b"d", b"x", Err(Errno::EINVAL)),
    (b"us\0er", b"d", b"x", Err(Errno::EINVAL)),
    (b".x", b"d", b"x", Err(Errno::EPERM)),
    (b"User", b"d", b"x", Err(Errno::ENODEV)),
    (b"user", b"d", b"x", Ok(Kind::User)),
    (b"user", b".x", b"x", Ok(Kind::User)),
    (b"user", b"", b"x", Err(Errno::EINVAL)),
    (b"user", b"d\0", b"x", Err(Errno::EINVAL)),
    (b"user", b"d", b"", Err(Errno::EINVAL)),
    (b"logon", b"afs:k", b"x", Ok(Kind::Logon)),
    (b"logon", b"afs", b"x", Err(Errno::EINVAL)),
    (b"logon", b":k", b"x", Err(Errno::EINVAL)),
    (b"logon", b":a:b", b"x", Err(Errno::EINVAL)),
    (b"keyring", b".x", b"", Err(Errno::EPERM)),
    (b"keyring", b"x", b"", Ok(Kind::Keyring)),
    (b"keyring", b"x", b"x", Err(Errno::EINVAL)),
];

fn kind_of(type_name: &[u8], desc: &[u8], payload: &[u8]) -> Result<Kind, Errno> {
    let kind = Kind::named(type_name)?;
    kind.check(desc, payload)?;
    Ok(kind)
}

#[test]
fn types_descriptions_and_payloads(rt: HostRuntime) {
    for (type_name, desc, payload, kind) in &KEYS {
        let (d, p) = (desc.len(), payload.len());
        assert!(rt;
            kind_of(type_name, desc, payload) == *kind,
            "{kind:?} {d} {p}"
        );
    }
}

#[test]
fn ids_are_serials_or_special_keyrings(rt: HostRuntime) {
    let rows = [
        (0, Err(Errno::EINVAL)),
        (1, Ok(KeyId::Serial(Serial::new(1)))),
        (2147483647, Ok(KeyId::Serial(Serial::new(2147483647)))),
        (-1, Ok(KeyId::Thread)),
        (-2, Ok(KeyId::Process)),
        (-3, Ok(KeyId::Session)),
        (-4, Ok(KeyId::User)),
        (-5, Ok(KeyId::UserSession)),
        (-6, Err(Errno::EINVAL)),
        (-2147483648, Err(Errno::EINVAL)),
    ];
    for (id, named) in &rows {
        assert!(rt; KeyId::from_i32(*id) == *named, "{id}");
    }
}

/// What the mask 3f010001 of a key of uid 1000 and gid 100 grants a caller, who is a good one.
fn grants(caller: &Caller, possessed: bool) -> Result<Rights, Errno> {
    caller.check()?;
    let perm = Perm::from_u32(0x3f01_0001)?;
    Ok(perm.grants(caller, 1000, 100, possessed))
}

/// The same of a caller by its uid, gid and groups.
fn granted(
    alloc: Global,
    uid: u32,
    gid: u32,
    groups: &[u32],
    possessed: bool,
) -> Result<Result<Rights, Errno>, AllocError> {
    let groups = Groups::new(Vec::from_slice(alloc, groups)?);
    Ok(grants(&Caller { uid, gid, groups }, possessed))
}

/// The mask 3f010001 of a key of uid 1000 and gid 100: its group has no right, though others may view it. A row has a
/// caller's uid, gid and groups, whether it possesses the key, and what it is granted.
#[test]
fn the_group_byte_counts_alone(rt: HostRuntime) -> Result<(), Fail> {
    let none: &[u32] = &[];
    let rows = [
        (1000, 100, none, false, Rights::VIEW),
        (2000, 200, none, false, Rights::VIEW),
        (3000, 100, none, false, Rights::empty()),
        (3000, 100, none, true, Rights::all()),
        (4000, 400, &[7, 100], false, Rights::empty()),
    ];
    for (uid, gid, groups, possessed, want) in &rows {
        let rights = granted(rt.alloc(), *uid, *gid, groups, *possessed)?;
        assert!(rt; rights == Ok(*want), "{uid}");
    }
    assert!(rt; Want::ToRead.allows(Rights::SEARCH, true));
    Ok(())
}
