//! Scripts of keyrings, a line and what it prints in each row.
use super::check_rows;
use std::test::Fail;

/// A keyring is not linked into one that it reaches, nor into itself.
#[rattlefmt::skip]
const CYCLES: [(&str, &str); 6] = [
    ("hello 1000 1000", "1"),
    ("newring C @u", "5"),
    ("newring B 5", "6"),
    ("newring A 6", "7"),
    ("link 5 7", "error 35 EDEADLK"),
    ("link 7 7", "error 35 EDEADLK"),
];

/// A keyring with a chain of six links of keyrings is not linked, one with a chain of five is.
#[rattlefmt::skip]
const NESTED: [(&str, &str); 11] = [
    ("hello 1000 1000", "1"),
    ("newring K1 @u", "5"),
    ("newring K2 5", "6"),
    ("newring K3 6", "7"),
    ("newring K4 7", "8"),
    ("newring K5 8", "9"),
    ("newring K6 9", "10"),
    ("newring K7 10", "11"),
    ("newring X @u", "12"),
    ("link 5 12", "error 40 ELOOP"),
    ("link 6 12", "ok"),
];

/// A revoked key is still linked, and may be unlinked; with its last link it is gone.
#[rattlefmt::skip]
const REVOKED: [(&str, &str); 7] = [
    ("hello 1000 1000", "1"),
    ("add user r x @u", "5"),
    ("revoke 5", "ok"),
    ("print 5", "error 128 EKEYREVOKED"),
    ("revoke 5", "error 128 EKEYREVOKED"),
    ("unlink 5 @u", "ok"),
    ("print 5", "error 126 ENOKEY"),
];

/// A link takes the place of one of equal type and description.
#[rattlefmt::skip]
const DISPLACED: [(&str, &str); 9] = [
    ("hello 1000 1000", "1"),
    ("newring a @u", "5"),
    ("newring b @u", "6"),
    ("add user k one 5", "7"),
    ("add user z two 5", "8"),
    ("add user k three 6", "9"),
    ("link 9 5", "ok"),
    ("rlist 5", "9 8"),
    ("print 7", "error 126 ENOKEY"),
];

/// Two keyrings and their links. A link displaces that of its type and description, and what no keyring links any
/// more is gone.
#[rattlefmt::skip]
const LINKED: [(&str, &str); 20] = [
    ("hello 1000 1000", "1"),
    ("newring a @u", "5"),
    ("add user k one 5", "6"),
    ("newring b 5", "7"),
    ("add user k two 7", "8"),
    ("link 5 7", "error 35 EDEADLK"),
    ("link 5 5", "error 35 EDEADLK"),
    ("link 5 6", "error 20 ENOTDIR"),
    ("unlink 7 6", "error 20 ENOTDIR"),
    ("clear 6", "error 20 ENOTDIR"),
    ("unlink 6 7", "error 2 ENOENT"),
    ("link 8 5", "ok"),
    ("rlist 5", "8 7"),
    ("print 6", "error 126 ENOKEY"),
    ("unlink 8 5", "ok"),
    ("print 8", "two"),
    ("clear 7", "ok"),
    ("print 8", "error 126 ENOKEY"),
    ("rlist 7", ""),
    ("rlist 5", "7"),
];

/// What is no keyring, and what is not linked.
#[rattlefmt::skip]
const NO_KEYRINGS: [(&str, &str); 10] = [
    ("hello 1000 1000", "1"),
    ("newring a @u", "5"),
    ("add user k x 5", "6"),
    ("unlink 6 @u", "error 2 ENOENT"),
    ("link 5 6", "error 20 ENOTDIR"),
    ("clear 6", "error 20 ENOTDIR"),
    ("update 5 z", "error 95 EOPNOTSUPP"),
    ("clear 5", "ok"),
    ("print 6", "error 126 ENOKEY"),
    ("rlist 5", ""),
];

/// Another kind of key is listed as it is printed, also where its bytes divide by four. So is a keyring that may be
/// read and not described, and that refusal of DESCRIBE does not count.
#[rattlefmt::skip]
const LISTED: [(&str, &str); 11] = [
    ("hello 1000 1000", "1"),
    ("rlist @us", "3"),
    ("rlist @u", ""),
    ("add user k abcd @u", "5"),
    ("rlist 5", "abcd"),
    ("add user n hex:05000000ff @u", "6"),
    ("rlist 6", ":hex:05000000ff"),
    ("rlist @u", "5 6"),
    ("rlist @s", "3"),
    ("setperm @u 3e000000", "ok"),
    ("rlist @u", ":hex:0500000006000000"),
];

/// What READ refuses, and what ADD refuses of a keyring.
#[rattlefmt::skip]
const REFUSED: [(&str, &str); 6] = [
    ("rlist @u", "error 3 ESRCH"),
    ("hello 1000 1000", "1"),
    ("rlist 5", "error 126 ENOKEY"),
    ("newring .x @u", "error 1 EPERM"),
    ("newring x 5", "error 126 ENOKEY"),
    ("rlist @t", "error 126 ENOKEY"),
];

/// Each script with its status.
const SCRIPTS: [(&[(&str, &str)], u8); 8] = [
    (&CYCLES, 1),
    (&NESTED, 1),
    (&REVOKED, 1),
    (&DISPLACED, 1),
    (&LINKED, 1),
    (&NO_KEYRINGS, 1),
    (&LISTED, 0),
    (&REFUSED, 1),
];

/// The scripts that are run again with each allocation refused.
pub(in crate::tests) const GROWING: [&[(&str, &str)]; 2] = [&LINKED, &REVOKED];

#[test]
fn keyrings_are_changed(rt: HostRuntime) -> Result<(), Fail> {
    for (rows, status) in &SCRIPTS {
        check_rows(&rt, rt.alloc(), rows, *status)?;
    }
    Ok(())
}
