//! Scripts of several users, a line and what it prints in each row: each way to give a key away, what is refused to
//! others, and what they are told. keyrings(7), "Possession" and "Access rights".
use super::check_rows_on;
use krs_store::Store;
use std::test::Fail;

/// Each begins with a key of mask 3f010000, of which the other user may read nothing: its owner sets the mask.
#[rattlefmt::skip]
const BY_MASK: [(&str, &str); 8] = [
    ("hello 1000 1000", "1"),
    ("add user token s3 @u", "5"),
    ("hello 1001 1001", "2"),
    ("print 5", "error 13 EACCES"),
    ("context 1", "ok"),
    ("setperm 5 3f010002", "ok"),
    ("context 2", "ok"),
    ("print 5", "s3"),
];

/// Of a keyring above the key, which the other then links: with SEARCH alone it can't.
#[rattlefmt::skip]
const BY_MASK_ABOVE: [(&str, &str); 15] = [
    ("hello 1000 1000", "1"),
    ("newring mine @u", "5"),
    ("add user token s3 5", "6"),
    ("hello 1001 1001", "2"),
    ("print 6", "error 13 EACCES"),
    ("context 1", "ok"),
    ("setperm 5 3f010008", "ok"),
    ("context 2", "ok"),
    ("print 6", "error 13 EACCES"),
    ("link 5 @u", "error 13 EACCES"),
    ("context 1", "ok"),
    ("setperm 5 3f010018", "ok"),
    ("context 2", "ok"),
    ("link 5 @u", "ok"),
    ("print 6", "s3"),
];

/// uid 0 makes another the owner.
#[rattlefmt::skip]
const BY_OWNER: [(&str, &str); 9] = [
    ("hello 0 0", "1"),
    ("add user token s3 @u", "5"),
    ("setperm 5 3f030000", "ok"),
    ("hello 1001 1001", "2"),
    ("print 5", "error 13 EACCES"),
    ("context 1", "ok"),
    ("chown 5 1001", "ok"),
    ("context 2", "ok"),
    ("print 5", "s3"),
];

/// The owner links it from a keyring of the other, who lets everybody write to it.
#[rattlefmt::skip]
const BY_LINK: [(&str, &str); 11] = [
    ("hello 1001 1001", "1"),
    ("newring box @u", "5"),
    ("setperm 5 3f010004", "ok"),
    ("hello 1000 1000", "2"),
    ("add user token s3 @u", "8"),
    ("context 1", "ok"),
    ("print 8", "error 13 EACCES"),
    ("context 2", "ok"),
    ("link 8 5", "ok"),
    ("context 1", "ok"),
    ("print 8", "s3"),
];

/// Moves it there.
#[rattlefmt::skip]
const BY_MOVE: [(&str, &str); 11] = [
    ("hello 1001 1001", "1"),
    ("newring box @u", "5"),
    ("setperm 5 3f010004", "ok"),
    ("hello 1000 1000", "2"),
    ("add user token s3 @u", "8"),
    ("context 1", "ok"),
    ("print 8", "error 13 EACCES"),
    ("context 2", "ok"),
    ("move 8 @u 5", "ok"),
    ("context 1", "ok"),
    ("print 8", "s3"),
];

/// Searches for it with that destination.
#[rattlefmt::skip]
const BY_SEARCH: [(&str, &str); 11] = [
    ("hello 1001 1001", "1"),
    ("newring box @u", "5"),
    ("setperm 5 3f010004", "ok"),
    ("hello 1000 1000", "2"),
    ("add user token s3 @u", "8"),
    ("context 1", "ok"),
    ("print 8", "error 13 EACCES"),
    ("context 2", "ok"),
    ("search @u user token 5", "8"),
    ("context 1", "ok"),
    ("print 8", "s3"),
];

/// Requests it with that destination.
#[rattlefmt::skip]
const BY_REQUEST: [(&str, &str); 11] = [
    ("hello 1001 1001", "1"),
    ("newring box @u", "5"),
    ("setperm 5 3f010004", "ok"),
    ("hello 1000 1000", "2"),
    ("add user token s3 @u", "8"),
    ("context 1", "ok"),
    ("print 8", "error 13 EACCES"),
    ("context 2", "ok"),
    ("request user token 5", "8"),
    ("context 1", "ok"),
    ("print 8", "s3"),
];

/// A key that is made there its maker never has to itself.
#[rattlefmt::skip]
const BY_BIRTH: [(&str, &str); 7] = [
    ("hello 1001 1001", "1"),
    ("newring box @u", "5"),
    ("setperm 5 3f010004", "ok"),
    ("hello 1000 1000", "2"),
    ("add user token s3 5", "8"),
    ("context 1", "ok"),
    ("print 8", "s3"),
];

/// Neither another user nor uid 0 comes to a key in a named session keyring: the name is not enough to join it.
#[rattlefmt::skip]
const UNREAD: [(&str, &str); 20] = [
    ("hello 1000 1000", "1"),
    ("join work", "5"),
    ("add user token s3 @s", "6"),
    ("hello 1001 1001", "2"),
    ("hello 0 0", "3"),
    ("context 2", "ok"),
    ("join work", "11"),
    ("print 6", "error 13 EACCES"),
    ("link 6 @u", "error 13 EACCES"),
    ("search @us user token", "error 126 ENOKEY"),
    ("request user token", "error 126 ENOKEY"),
    ("setperm 6 3f3f3f3f", "error 13 EACCES"),
    ("rdescribe 6", "error 13 EACCES"),
    ("link 5 @u", "error 13 EACCES"),
    ("context 3", "ok"),
    ("chown 6 0", "error 13 EACCES"),
    ("setperm 6 3f3f3f3f", "error 13 EACCES"),
    ("print 6", "error 13 EACCES"),
    ("context 1", "ok"),
    ("print 6", "s3"),
];

/// Nor do they change one, or drop it.
#[rattlefmt::skip]
const UNCHANGED: [(&str, &str); 17] = [
    ("hello 1000 1000", "1"),
    ("newring box @u", "5"),
    ("add user token s3 5", "6"),
    ("hello 0 0", "2"),
    ("hello 1001 1001", "3"),
    ("update 6 x", "error 13 EACCES"),
    ("timeout 6 1", "error 13 EACCES"),
    ("revoke 6", "error 13 EACCES"),
    ("invalidate 6", "error 13 EACCES"),
    ("clear 5", "error 13 EACCES"),
    ("unlink 6 5", "error 13 EACCES"),
    ("add user token x 5", "error 13 EACCES"),
    ("exec", "ok"),
    ("exit", "ok"),
    ("context 1", "ok"),
    ("print 6", "s3"),
    ("rlist 5", "6"),
];

/// Only a key of theirs that a keyring links goes out of it, when they invalidate it.
#[rattlefmt::skip]
const TAKEN_OUT: [(&str, &str); 12] = [
    ("hello 1001 1001", "1"),
    ("add user theirs x @u", "5"),
    ("setperm 5 3f010010", "ok"),
    ("hello 1000 1000", "2"),
    ("newring box @u", "8"),
    ("add user token s3 8", "9"),
    ("link 5 8", "ok"),
    ("rlist 8", "9 5"),
    ("context 1", "ok"),
    ("invalidate 5", "ok"),
    ("context 2", "ok"),
    ("rlist 8", "9"),
];

/// What they are told is that a key is there, and by the serials how many were made; never what it holds.
#[rattlefmt::skip]
const TOLD: [(&str, &str); 11] = [
    ("hello 1001 1001", "1"),
    ("add user first x @u", "5"),
    ("hello 1000 1000", "2"),
    ("add user token s3 @u", "8"),
    ("context 1", "ok"),
    ("add user second x @u", "9"),
    ("print 8", "error 13 EACCES"),
    ("context 2", "ok"),
    ("invalidate 8", "ok"),
    ("context 1", "ok"),
    ("print 8", "error 126 ENOKEY"),
];

/// Each script with its status.
const SCRIPTS: [(&[(&str, &str)], u8); 12] = [
    (&BY_MASK, 1),
    (&BY_MASK_ABOVE, 1),
    (&BY_OWNER, 1),
    (&BY_LINK, 1),
    (&BY_MOVE, 1),
    (&BY_SEARCH, 1),
    (&BY_REQUEST, 1),
    (&BY_BIRTH, 0),
    (&UNREAD, 1),
    (&UNCHANGED, 1),
    (&TAKEN_OUT, 0),
    (&TOLD, 1),
];

#[test]
fn users_keys(rt: HostRuntime) -> Result<(), Fail> {
    for (rows, status) in &SCRIPTS {
        check_rows_on(&rt, rt.alloc(), Store::new(rt.alloc()), rows, *status)?;
    }
    Ok(())
}
