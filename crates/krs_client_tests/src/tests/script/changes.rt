//! Scripts whose keys are changed, a line and what it prints in each row.
use super::check_rows;
use std::test::Fail;

/// A key's time ends, and moments never go back.
#[rattlefmt::skip]
const EXPIRY: [(&str, &str); 14] = [
    ("hello 1000 1000", "1"),
    ("moment 100", "ok"),
    ("add user t x @u", "5"),
    ("timeout 5 10", "ok"),
    ("moment 109", "ok"),
    ("print 5", "x"),
    ("moment 110", "ok"),
    ("print 5", "error 127 EKEYEXPIRED"),
    ("moment 50", "ok"),
    ("print 5", "error 127 EKEYEXPIRED"),
    ("moment 18446744073709551615", "ok"),
    ("add user u y @u", "6"),
    ("timeout 6 1", "ok"),
    ("print 6", "error 127 EKEYEXPIRED"),
];

/// Logon keys are never read.
#[rattlefmt::skip]
const LOGON: [(&str, &str); 6] = [
    ("hello 1000 1000", "1"),
    ("add logon afs:k x @u", "5"),
    ("add logon afs x @u", "error 22 EINVAL"),
    ("add logon :k x @u", "error 22 EINVAL"),
    ("print 5", "error 95 EOPNOTSUPP"),
    ("rdescribe 5", "logon;1000;1000;3d010000;afs:k"),
];

/// One of the bytes for user, group and others counts, and no other.
#[rattlefmt::skip]
const ONE_CLASS_BYTE: [(&str, &str); 10] = [
    ("hello 1000 100", "1"),
    ("add user alpha s @u", "5"),
    ("hello 2000 200", "2"),
    ("print 5", "error 13 EACCES"),
    ("context 1", "ok"),
    ("setperm 5 3f010001", "ok"),
    ("hello 3000 100", "3"),
    ("rdescribe 5", "error 13 EACCES"),
    ("context 2", "ok"),
    ("rdescribe 5", "user;1000;100;3f010001;alpha"),
];

/// A timeout is taken away, by 0 or by UPDATE; an owner, a group and a mask are refused; a revoked key is displaced.
#[rattlefmt::skip]
const TIMEOUTS_OWNERS_MASKS: [(&str, &str); 19] = [
    ("hello 1000 1000", "1"),
    ("add user a x @u", "5"),
    ("timeout 5 4294967295", "ok"),
    ("timeout 5 0", "ok"),
    ("moment 9", "ok"),
    ("print 5", "x"),
    ("timeout 5 1", "ok"),
    ("update 5 x", "ok"),
    ("moment 10", "ok"),
    ("print 5", "x"),
    ("chown 5 1000", "ok"),
    ("chown 5 7", "error 13 EACCES"),
    ("chgrp 5 1000", "ok"),
    ("chgrp 5 8", "error 13 EACCES"),
    ("setperm 5 40000000", "error 22 EINVAL"),
    ("revoke 5", "ok"),
    ("add user a y @u", "6"),
    ("print 5", "error 126 ENOKEY"),
    ("print 6", "y"),
];

/// Uid 0 gives a key away. The digits of a mask are of either case.
#[rattlefmt::skip]
const OWNERS_BY_ROOT: [(&str, &str); 11] = [
    ("hello 0 0", "1"),
    ("add user a x @u", "5"),
    ("chown 5 7", "ok"),
    ("rdescribe 5", "user;7;0;3f010000;a"),
    ("chgrp 5 8", "ok"),
    ("rdescribe 5", "user;7;8;3f010000;a"),
    ("setperm 5 3F3f3F00", "ok"),
    ("rdescribe 5", "user;7;8;3f3f3f00;a"),
    ("update 5 hex:00ff", "ok"),
    ("print 5", ":hex:00ff"),
    ("update 5 hex:", "error 22 EINVAL"),
];

/// A payload is tested behind the type, and takes the expiry away; an expired key is displaced.
#[rattlefmt::skip]
const UPDATED: [(&str, &str); 18] = [
    ("hello 1000 1000", "1"),
    ("add logon afs:k x @u", "5"),
    ("update @u x", "error 95 EOPNOTSUPP"),
    ("update 5 hex:", "error 22 EINVAL"),
    ("add user a s3 @u", "6"),
    ("moment 100", "ok"),
    ("timeout 6 10", "ok"),
    ("moment 109", "ok"),
    ("print 6", "s3"),
    ("update 6 t4", "ok"),
    ("moment 110", "ok"),
    ("print 6", "t4"),
    ("moment 18446744073709551615", "ok"),
    ("timeout 6 1", "ok"),
    ("print 6", "error 127 EKEYEXPIRED"),
    ("add user a u5 @u", "7"),
    ("print 6", "error 126 ENOKEY"),
    ("print 7", "u5"),
];

/// Every script here has a refusal, so that its status is 1.
const SCRIPTS: [&[(&str, &str)]; 6] = [
    &EXPIRY,
    &UPDATED,
    &LOGON,
    &ONE_CLASS_BYTE,
    &TIMEOUTS_OWNERS_MASKS,
    &OWNERS_BY_ROOT,
];

/// The scripts that are run again with each allocation refused.
pub(in crate::tests) const GROWING: [&[(&str, &str)]; 2] = [&TIMEOUTS_OWNERS_MASKS, &UPDATED];

#[test]
fn keys_are_changed(rt: HostRuntime) -> Result<(), Fail> {
    for rows in &SCRIPTS {
        check_rows(&rt, rt.alloc(), rows, 1)?;
    }
    Ok(())
}
