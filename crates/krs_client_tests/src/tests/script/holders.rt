//! Scripts in which contexts end and keys are let go, a line and what it prints in each row.
use super::check_rows;
use std::alloc::Global;
use std::process::Abort;
use std::test::Fail;

/// A context that ended is still the current one, and is no context. With the last context of a uid its keyrings go,
/// and the next one makes them anew.
#[rattlefmt::skip]
const LAST_CONTEXT: [(&str, &str); 12] = [
    ("hello 1000 1000", "1"),
    ("newring box @u", "5"),
    ("hello 1000 1000", "2"),
    ("exit", "ok"),
    ("rdescribe 5", "error 3 ESRCH"),
    ("exit", "error 3 ESRCH"),
    ("context 1", "ok"),
    ("rlist @u", "5"),
    ("exit", "ok"),
    ("hello 1000 1000", "3"),
    ("rdescribe 6", "keyring;1000;1000;1f3f0000;_uid.1000"),
    ("rdescribe 5", "error 126 ENOKEY"),
];

/// A thread keyring that its process keyring links outlives its context. Both go with the last context of the
/// process.
#[rattlefmt::skip]
const LAST_OF_A_PROCESS: [(&str, &str); 13] = [
    ("hello 1000 1000", "1"),
    ("id @p create", "5"),
    ("thread", "2"),
    ("fork", "3"),
    ("id @t create", "6"),
    ("link 6 5", "ok"),
    ("exit", "ok"),
    ("context 2", "ok"),
    ("rdescribe 6", "keyring;1000;1000;3f010000;_tid"),
    ("exit", "ok"),
    ("context 3", "ok"),
    ("rdescribe 6", "error 126 ENOKEY"),
    ("id @u", "3"),
];

/// A key stays while something links it.
#[rattlefmt::skip]
const LAST_LINK: [(&str, &str); 8] = [
    ("hello 1000 1000", "1"),
    ("newring a @u", "5"),
    ("add user k x 5", "6"),
    ("link 6 @u", "ok"),
    ("unlink 6 5", "ok"),
    ("print 6", "x"),
    ("unlink 6 @u", "ok"),
    ("print 6", "error 126 ENOKEY"),
];

/// An invalidated key is out of every keyring at once, and an invalidated keyring takes along what it alone links.
#[rattlefmt::skip]
const INVALIDATED: [(&str, &str); 12] = [
    ("hello 1000 1000", "1"),
    ("newring box @u", "5"),
    ("add user k x 5", "6"),
    ("link 6 @u", "ok"),
    ("invalidate 6", "ok"),
    ("rlist 5", ""),
    ("rlist @u", "5"),
    ("print 6", "error 126 ENOKEY"),
    ("add user k y 5", "7"),
    ("invalidate 5", "ok"),
    ("print 7", "error 126 ENOKEY"),
    ("rlist @u", ""),
];

/// An invalidated keyring is out of every attachment.
#[rattlefmt::skip]
const DETACHED: [(&str, &str); 10] = [
    ("hello 1000 1000", "1"),
    ("join", "5"),
    ("invalidate @s", "ok"),
    ("id @s", "error 126 ENOKEY"),
    ("rdescribe 5", "error 126 ENOKEY"),
    ("hello 1000 1000", "2"),
    ("invalidate @us", "ok"),
    ("id @s", "error 126 ENOKEY"),
    ("id @us", "error 126 ENOKEY"),
    ("id @u", "3"),
];

/// A key that many keyrings link is out of each of them, however its links came and went: by UNLINK, CLEAR, MOVE, a
/// link that took the place of another, and the end of a keyring.
#[rattlefmt::skip]
const LINKED_BY_MANY: [(&str, &str); 30] = [
    ("hello 1000 1000", "1"),
    ("newring a @u", "5"),
    ("newring b @u", "6"),
    ("newring c @u", "7"),
    ("newring d @u", "8"),
    ("newring e @u", "9"),
    ("add user k x 5", "10"),
    ("link 10 6", "ok"),
    ("link 10 7", "ok"),
    ("link 10 8", "ok"),
    ("link 10 9", "ok"),
    ("unlink 10 6", "ok"),
    ("clear 7", "ok"),
    ("unlink 9 @u", "ok"),
    ("link 10 7", "ok"),
    ("link 10 7", "ok"),
    ("link 10 @u", "ok"),
    ("newring f @u", "11"),
    ("move 10 5 11", "ok"),
    ("newring g @u", "12"),
    ("add user k y 12", "13"),
    ("link 13 8", "ok"),
    ("link 10 12", "ok"),
    ("invalidate 10", "ok"),
    ("rlist @u", "5 6 7 8 11 12"),
    ("rlist 7", ""),
    ("rlist 11", ""),
    ("rlist 12", ""),
    ("rlist 8", "13"),
    ("print 10", "error 126 ENOKEY"),
];

/// A key that stands where one was that is gone is out of the keyrings that link it.
#[rattlefmt::skip]
const IN_ANOTHERS_PLACE: [(&str, &str); 12] = [
    ("hello 1000 1000", "1"),
    ("newring a @u", "5"),
    ("newring b @u", "6"),
    ("add user k x 5", "7"),
    ("link 7 6", "ok"),
    ("invalidate 7", "ok"),
    ("add user m y @u", "8"),
    ("link 8 6", "ok"),
    ("invalidate 8", "ok"),
    ("rlist 6", ""),
    ("rlist @u", "5 6"),
    ("print 8", "error 126 ENOKEY"),
];

/// A keyring that three contexts and a uid attach, and that keyrings at three levels link, is out of all of them, and
/// so is one that a process attaches; what they alone link goes along.
#[rattlefmt::skip]
const HELD_IN_ALL_WAYS: [(&str, &str); 30] = [
    ("hello 1000 1000", "1"),
    ("id @t create", "5"),
    ("link @us @t", "ok"),
    ("newring a @t", "6"),
    ("link @us 6", "ok"),
    ("newring b 6", "7"),
    ("link @us 7", "ok"),
    ("add user k x @us", "8"),
    ("thread", "2"),
    ("fork", "3"),
    ("rlist @t", "4 6"),
    ("invalidate @us", "ok"),
    ("id @s", "error 126 ENOKEY"),
    ("id @us", "error 126 ENOKEY"),
    ("print 8", "error 126 ENOKEY"),
    ("rlist @t", "6"),
    ("rlist 6", "7"),
    ("rlist 7", ""),
    ("context 2", "ok"),
    ("id @s", "error 126 ENOKEY"),
    ("context 3", "ok"),
    ("id @s", "error 126 ENOKEY"),
    ("id @u", "3"),
    ("id @p create", "9"),
    ("add user m y @p", "10"),
    ("link @p @u", "ok"),
    ("invalidate @p", "ok"),
    ("id @p", "error 126 ENOKEY"),
    ("rlist @u", ""),
    ("print 10", "error 126 ENOKEY"),
];

/// INVALIDATE looks its key up for SEARCH.
#[rattlefmt::skip]
const NOT_INVALIDATED: [(&str, &str); 15] = [
    ("invalidate 5", "error 3 ESRCH"),
    ("hello 1000 1000", "1"),
    ("invalidate 0", "error 22 EINVAL"),
    ("invalidate 5", "error 126 ENOKEY"),
    ("invalidate @t", "error 126 ENOKEY"),
    ("add user k x @u", "5"),
    ("setperm 5 37370000", "ok"),
    ("invalidate 5", "error 13 EACCES"),
    ("revoke 5", "ok"),
    ("invalidate 5", "error 128 EKEYREVOKED"),
    ("add user t x @u", "6"),
    ("timeout 6 5", "ok"),
    ("moment 5", "ok"),
    ("invalidate 6", "error 127 EKEYEXPIRED"),
    ("rlist @u", "5 6"),
];

/// Contexts that end, and links that are taken out.
const LET_GO: [&[(&str, &str)]; 3] = [&LAST_LINK, &LAST_CONTEXT, &LAST_OF_A_PROCESS];

/// Keys that are invalidated, or are not.
const INVALIDATIONS: [&[(&str, &str)]; 6] = [
    &INVALIDATED,
    &DETACHED,
    &LINKED_BY_MANY,
    &IN_ANOTHERS_PLACE,
    &HELD_IN_ALL_WAYS,
    &NOT_INVALIDATED,
];

/// Every script here has a refusal, so that its status is 1.
fn check_scripts(rt: &impl Abort, alloc: Global, scripts: &[&[(&str, &str)]]) -> Result<(), Fail> {
    for rows in scripts {
        check_rows(rt, alloc, rows, 1)?;
    }
    Ok(())
}

/// The scripts that are run again with each allocation refused.
pub(in crate::tests) const GROWING: [&[(&str, &str)]; 4] = [
    &LAST_OF_A_PROCESS,
    &DETACHED,
    &LINKED_BY_MANY,
    &HELD_IN_ALL_WAYS,
];

#[test]
fn keys_are_let_go(rt: HostRuntime) -> Result<(), Fail> {
    check_scripts(&rt, rt.alloc(), &LET_GO)
}

#[test]
fn keys_are_invalidated(rt: HostRuntime) -> Result<(), Fail> {
    check_scripts(&rt, rt.alloc(), &INVALIDATIONS)
}
