//! Scripts of links that move and of keyrings that are closed, a line and what it prints in each row.
use super::{check_rows, check_script};
use std::test::Fail;

/// A link is moved, and tells of it on both keyrings. The key that it displaces drops. A closed keyring takes no link.
#[rattlefmt::skip]
const MOVED: [(&str, &str); 20] = [
    ("hello 1000 1000", "1"),
    ("newring a @u", "5"),
    ("newring b @u", "6"),
    ("add user k one 5", "7"),
    ("add user k two 6", "8"),
    ("open 8", "1"),
    ("watch 5 1 1", "ok"),
    ("watch 6 1 2", "ok"),
    ("watch 8 1 3", "ok"),
    ("move 7 5 6 excl", "error 17 EEXIST"),
    ("move 7 5 6", "ok"),
    ("rlist 6", "7"),
    ("readq 1 64", "010000031001000005000000070000000100000210020000060000000700000000000000100300000800000000000000"),
    ("move 7 5 6", "error 2 ENOENT"),
    ("restrict 5", "ok"),
    ("restrict 5", "error 17 EEXIST"),
    ("link 7 5", "error 1 EPERM"),
    ("move 7 6 5", "error 1 EPERM"),
    ("add user z x 5", "error 1 EPERM"),
    ("restrict 7", "error 20 ENOTDIR"),
];

/// What MOVE refuses, each where all that comes later would be refused too.
#[rattlefmt::skip]
const MOVE_REFUSED: [(&str, &str); 35] = [
    ("move 9 9 9", "error 3 ESRCH"),
    ("hello 1000 1000", "1"),
    ("newring a @u", "5"),
    ("newring b @u", "6"),
    ("add user k one 5", "7"),
    ("add user l two @u", "8"),
    // The key, for LINK.
    ("move 0 0 0", "error 22 EINVAL"),
    ("move 99 0 0", "error 126 ENOKEY"),
    ("setperm 8 2f000000", "ok"),
    ("move 8 0 0", "error 13 EACCES"),
    ("setperm 8 3f000000", "ok"),
    // The first keyring, for WRITE.
    ("move 8 0 99", "error 22 EINVAL"),
    ("move 8 99 0", "error 126 ENOKEY"),
    ("move 8 @t @t", "error 126 ENOKEY"),
    ("setperm 6 3b000000", "ok"),
    ("move 8 6 0", "error 13 EACCES"),
    // The second, for WRITE.
    ("move 8 7 0", "error 22 EINVAL"),
    ("move 8 7 99", "error 126 ENOKEY"),
    ("move 8 7 6", "error 13 EACCES"),
    ("setperm 6 3f000000", "ok"),
    // No keyrings, and no link.
    ("move 8 7 7", "error 20 ENOTDIR"),
    ("move 8 7 6", "error 20 ENOTDIR"),
    ("move 8 7 @t", "error 20 ENOTDIR"),
    ("move 8 6 7", "error 20 ENOTDIR"),
    ("move 8 6 6", "error 2 ENOENT"),
    ("add user k three 6", "9"),
    ("restrict 6", "ok"),
    ("move 8 5 6 excl", "error 2 ENOENT"),
    ("move 8 5 @t", "error 2 ENOENT"),
    // The destination has such a link; it is closed; the link closes a cycle.
    ("move 7 5 6 excl", "error 17 EEXIST"),
    ("move 7 5 6", "error 1 EPERM"),
    ("restrict 5", "ok"),
    ("move 5 @u 5", "error 1 EPERM"),
    ("newring c @u", "10"),
    ("move 10 @u 10", "error 35 EDEADLK"),
];

/// A keyring is moved into none that it reaches, and none with a chain of six links of keyrings.
#[rattlefmt::skip]
const MOVE_NESTED: [(&str, &str); 17] = [
    ("hello 1000 1000", "1"),
    ("newring K1 @u", "5"),
    ("newring K2 5", "6"),
    ("newring K3 6", "7"),
    ("newring K4 7", "8"),
    ("newring K5 8", "9"),
    ("newring K6 9", "10"),
    ("newring K7 10", "11"),
    ("newring X @u", "12"),
    ("move 5 @u 7", "error 35 EDEADLK"),
    ("move 5 @u 12", "error 40 ELOOP"),
    ("move 5 @u @t", "error 40 ELOOP"),
    ("id @t", "error 126 ENOKEY"),
    ("move 6 5 12", "ok"),
    ("rlist 5", ""),
    ("move 5 @u 12", "ok"),
    ("rlist 12", "6 5"),
];

/// Within one keyring nothing changes, whatever the flag, and also where it is closed.
#[rattlefmt::skip]
const IN_PLACE: [(&str, &str); 13] = [
    ("hello 1000 1000", "1"),
    ("newring a @u", "5"),
    ("add user k one 5", "6"),
    ("add user l two 5", "7"),
    ("open 8", "1"),
    ("watch 5 1 1", "ok"),
    ("move 6 5 5", "ok"),
    ("move 6 5 5 excl", "ok"),
    ("rlist 5", "6 7"),
    ("restrict 5", "ok"),
    ("move 6 5 5", "ok"),
    ("rlist 5", "6 7"),
    ("readq 1 64", "error 11 EAGAIN"),
];

/// A link takes the place of one of equal type and description; one to the very key keeps its place, and tells of both.
#[rattlefmt::skip]
const DISPLACED: [(&str, &str); 18] = [
    ("hello 1000 1000", "1"),
    ("newring a @u", "5"),
    ("newring b @u", "6"),
    ("add user k one 5", "7"),
    ("add user k two 6", "8"),
    ("add user l three 6", "9"),
    ("move 7 5 6", "ok"),
    ("rlist 5", ""),
    ("rlist 6", "7 9"),
    ("print 8", "error 126 ENOKEY"),
    ("link 7 5", "ok"),
    ("move 7 5 6 excl", "error 17 EEXIST"),
    ("open 8", "1"),
    ("watch 5 1 1", "ok"),
    ("watch 6 1 2", "ok"),
    ("move 7 5 6", "ok"),
    ("rlist 6", "7 9"),
    ("readq 1 64", "0100000310010000050000000700000001000002100200000600000007000000"),
];

/// A link that goes is followed by no drop of its key, but by that of what the keyring alone held.
#[rattlefmt::skip]
const HELD: [(&str, &str); 11] = [
    ("hello 1000 1000", "1"),
    ("newring a @u", "5"),
    ("newring b 5", "6"),
    ("add user k one 6", "7"),
    ("open 8", "1"),
    ("watch 7 1 1", "ok"),
    ("move 7 6 @u", "ok"),
    ("clear 5", "ok"),
    ("print 7", "one"),
    ("unlink 7 @u", "ok"),
    ("readq 1 64", "00000000100100000700000000000000"),
];

/// A missing thread or process keyring is made for the second keyring, and no first keyring is.
#[rattlefmt::skip]
const MADE: [(&str, &str); 17] = [
    ("hello 1000 1000", "1"),
    ("newring a @u", "5"),
    ("add user k one 5", "6"),
    ("newring b 5", "7"),
    ("open 8", "1"),
    ("watch 5 1 1", "ok"),
    ("move 6 5 @t excl", "ok"),
    ("id @t", "8"),
    ("rlist @t", "6"),
    ("readq 1 64", "01000003100100000500000006000000"),
    ("move 7 5 @p", "ok"),
    ("id @p", "9"),
    ("rlist @p", "7"),
    ("rlist 5", ""),
    ("move 6 @t @p", "ok"),
    ("rlist @t", ""),
    ("rlist @p", "7 6"),
];

/// What a closed keyring refuses, before a cycle and where a link would be displaced too, and what it goes on with.
#[rattlefmt::skip]
const CLOSED: [(&str, &str); 23] = [
    ("hello 1000 1000", "1"),
    ("newring a @u", "5"),
    ("newring b 5", "6"),
    ("add user k one 6", "7"),
    ("add user k two @u", "8"),
    ("restrict 6", "ok"),
    ("link 8 6", "error 1 EPERM"),
    ("link 7 6", "error 1 EPERM"),
    ("link 5 6", "error 1 EPERM"),
    ("move 8 @u 6", "error 1 EPERM"),
    ("search @u user k 6", "error 1 EPERM"),
    ("request user k 6", "error 1 EPERM"),
    ("newring c 6", "error 1 EPERM"),
    ("add user k three 6", "7"),
    ("print 7", "three"),
    ("revoke 7", "ok"),
    ("add user k four 6", "error 1 EPERM"),
    ("link 8 5", "ok"),
    ("add user l five @u", "9"),
    ("unlink 7 6", "ok"),
    ("rlist 6", ""),
    ("clear 6", "ok"),
    ("restrict 6", "error 17 EEXIST"),
];

/// A link is moved out of a closed keyring.
#[rattlefmt::skip]
const MOVED_OUT: [(&str, &str); 6] = [
    ("hello 1000 1000", "1"),
    ("newring a @u", "5"),
    ("add user k one 5", "6"),
    ("restrict 5", "ok"),
    ("move 6 5 @u", "ok"),
    ("rlist @u", "5 6"),
];

/// What RESTRICT_KEYRING refuses, each where all that comes later would be refused too.
#[rattlefmt::skip]
const RESTRICT_REFUSED: [(&str, &str); 17] = [
    ("restrict 9", "error 3 ESRCH"),
    ("hello 1000 1000", "1"),
    ("newring a @u", "5"),
    ("add user k one @u", "6"),
    ("restrict 0", "error 22 EINVAL"),
    ("restrict 9", "error 126 ENOKEY"),
    ("restrict @t", "error 126 ENOKEY"),
    ("setperm 6 1f000000", "ok"),
    ("restrict 6", "error 13 EACCES"),
    // Another user.
    ("hello 1001 1001", "2"),
    ("restrict 5", "error 13 EACCES"),
    ("context 1", "ok"),
    ("restrict 5", "ok"),
    ("setperm 5 1f000000", "ok"),
    ("restrict 5", "error 13 EACCES"),
    ("link 6 5", "error 1 EPERM"),
    ("setperm 5 3f000000", "error 13 EACCES"),
];

/// What MOVE and RESTRICT_KEYRING look up may be expired or revoked: the key, the first keyring and the second.
#[rattlefmt::skip]
const DEAD: [(&str, &str); 18] = [
    ("hello 1000 1000", "1"),
    ("newring a @u", "5"),
    ("newring b @u", "6"),
    ("add user k one 5", "7"),
    ("add user l two @u", "8"),
    ("add user m three @u", "9"),
    ("timeout 7 10", "ok"),
    ("timeout 6 10", "ok"),
    ("moment 100", "ok"),
    ("move 7 99 6", "error 127 EKEYEXPIRED"),
    ("move 9 6 99", "error 127 EKEYEXPIRED"),
    ("move 9 @u 6", "error 127 EKEYEXPIRED"),
    ("restrict 6", "error 127 EKEYEXPIRED"),
    ("revoke 5", "ok"),
    ("move 9 5 99", "error 128 EKEYREVOKED"),
    ("move 9 @u 5", "error 128 EKEYREVOKED"),
    ("restrict 5", "error 128 EKEYREVOKED"),
    ("rlist @u", "5 6 8 9"),
];

/// Each script with its status.
const SCRIPTS: [(&[(&str, &str)], u8); 11] = [
    (&DEAD, 1),
    (&MOVED, 1),
    (&MOVE_REFUSED, 1),
    (&MOVE_NESTED, 1),
    (&IN_PLACE, 1),
    (&DISPLACED, 1),
    (&HELD, 0),
    (&MADE, 0),
    (&CLOSED, 1),
    (&MOVED_OUT, 0),
    (&RESTRICT_REFUSED, 1),
];

/// Lines that have not the words that their command takes.
#[rattlefmt::skip]
const FAULTS: [&str; 10] = [
    "move", "move 5 6", "move x 6 7", "move 5 6 7 Excl", "move 5 6 7 excl 8", "move 5 6 7 8",
    "restrict", "restrict x", "restrict 5 user", "Restrict 5",
];

/// The scripts that are run again with each allocation refused.
pub(in crate::tests) const GROWING: [&[(&str, &str)]; 3] = [&MOVED, &DISPLACED, &MADE];

#[test]
fn links_move(rt: HostRuntime) -> Result<(), Fail> {
    for (rows, status) in &SCRIPTS {
        check_rows(&rt, rt.alloc(), rows, *status)?;
    }
    Ok(())
}

#[test]
fn words_of_moves(rt: HostRuntime) {
    for line in &FAULTS {
        check_script(&rt, rt.alloc(), line, "usage\n", 2);
    }
}
