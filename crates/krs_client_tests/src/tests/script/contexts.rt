//! Scripts of contexts, session keyrings and search, a line and what it prints in each row.
use super::check_rows_on;
use krs_store::Store;
use std::test::Fail;

/// A new context of the process has its process keyring, one of another process has not; neither has the thread
/// keyring of its maker. EXEC ends the other contexts of the process and leaves it without both.
#[rattlefmt::skip]
const PROCESSES: [(&str, &str); 18] = [
    ("hello 1000 1000", "1"),
    ("id @t", "error 126 ENOKEY"),
    ("id @t create", "5"),
    ("id @p create", "6"),
    ("thread", "2"),
    ("fork", "3"),
    ("context 2", "ok"),
    ("id @t", "error 126 ENOKEY"),
    ("id @p", "6"),
    ("context 3", "ok"),
    ("id @p", "error 126 ENOKEY"),
    ("id @s", "4"),
    ("context 1", "ok"),
    ("exec", "ok"),
    ("id @p", "error 126 ENOKEY"),
    ("context 2", "ok"),
    ("id @s", "error 3 ESRCH"),
    ("fork", "error 3 ESRCH"),
];

/// The lines behind `thread` and `fork` are still of the context that asked for them.
#[rattlefmt::skip]
const CURRENT: [(&str, &str); 7] = [
    ("hello 1000 1000", "1"),
    ("id @t create", "5"),
    ("thread", "2"),
    ("id @t", "5"),
    ("fork", "3"),
    ("id @t create", "5"),
    ("id 5", "5"),
];

/// A named session keyring is joined where it grants SEARCH by another byte than the possessor's, else made anew.
#[rattlefmt::skip]
const SESSIONS: [(&str, &str); 13] = [
    ("hello 1000 1000", "1"),
    ("join", "5"),
    ("rdescribe @s", "keyring;1000;1000;3f030000;_ses"),
    ("join work", "6"),
    ("join work", "7"),
    ("setperm 7 3f1b0000", "ok"),
    ("thread", "2"),
    ("join", "8"),
    ("join work", "7"),
    ("join .x", "error 1 EPERM"),
    ("newring .x @u", "error 1 EPERM"),
    ("rdescribe @s", "keyring;1000;1000;3f1b0000;work"),
    ("id @s", "7"),
];

/// The nearer of two matches is found.
#[rattlefmt::skip]
const NEAREST: [(&str, &str); 6] = [
    ("hello 1000 1000", "1"),
    ("newring R @u", "5"),
    ("newring A 5", "6"),
    ("add user k deep 6", "7"),
    ("add user k near 5", "8"),
    ("search 5 user k", "8"),
];

/// A search enters six levels of keyrings below its head, and possession goes as far.
#[rattlefmt::skip]
const DEPTH: [(&str, &str); 13] = [
    ("hello 1000 1000", "1"),
    ("newring A1 @t", "6"),
    ("newring A2 6", "7"),
    ("newring A3 7", "8"),
    ("newring A4 8", "9"),
    ("newring A5 9", "10"),
    ("newring A6 10", "11"),
    ("newring A7 11", "12"),
    ("add user d6 x 11", "13"),
    ("add user d7 x 12", "14"),
    ("search @t user d6", "13"),
    ("search @t user d7", "error 126 ENOKEY"),
    ("print 14", "error 13 EACCES"),
];

/// What is found is linked to the destination, where there is one.
#[rattlefmt::skip]
const DESTINATIONS: [(&str, &str); 19] = [
    ("hello 1000 1000", "1"),
    ("add user k x @u", "5"),
    ("newring box @u", "6"),
    ("search @s user k", "5"),
    ("search @s user k 0", "5"),
    ("request user k", "5"),
    ("rlist 6", ""),
    ("search @s user k 6", "5"),
    ("rlist 6", "5"),
    ("request user k 6", "5"),
    ("request keyring box @t", "6"),
    ("rlist @t", "6"),
    ("id @t", "7"),
    ("search @s user z", "error 126 ENOKEY"),
    ("search 5 user k", "error 20 ENOTDIR"),
    ("search @s user k 5", "error 20 ENOTDIR"),
    ("search @s other k", "error 19 ENODEV"),
    ("request .user k", "error 1 EPERM"),
    ("request keyring box 6", "error 35 EDEADLK"),
];

/// A thread keyring that the ask is to make counts as made, and is not made where the ask is refused.
#[rattlefmt::skip]
const COUNTS_AS_MADE: [(&str, &str); 6] = [
    ("hello 1000 1000", "1"),
    ("link 5 @t", "error 35 EDEADLK"),
    ("request keyring _tid @t", "error 35 EDEADLK"),
    ("search @t keyring _tid @t", "error 126 ENOKEY"),
    ("id @t", "error 126 ENOKEY"),
    ("newring A @t", "6"),
];

/// The user's byte of the mask counts for its user, and the others' byte for others. Neither an expired keyring is
/// joined nor one that ADD made. A session keyring is gone that its last context left. A name is looked at behind the
/// context.
#[rattlefmt::skip]
const BY_WHOM: [(&str, &str); 33] = [
    ("hello 1000 1000", "1"),
    ("hello 2000 2000", "2"),
    ("context 1", "ok"),
    ("join work", "7"),
    ("context 2", "ok"),
    ("join work", "8"),
    ("context 1", "ok"),
    ("setperm 7 3f130008", "ok"),
    ("context 2", "ok"),
    ("join work", "7"),
    ("context 1", "ok"),
    ("print 8", "error 126 ENOKEY"),
    ("join work", "9"),
    ("context 2", "ok"),
    ("moment 100", "ok"),
    ("timeout 7 10", "ok"),
    ("moment 109", "ok"),
    ("join work", "7"),
    ("context 1", "ok"),
    ("moment 110", "ok"),
    ("print 7", "error 127 EKEYEXPIRED"),
    ("context 2", "ok"),
    ("join work", "10"),
    ("context 1", "ok"),
    ("print 7", "error 126 ENOKEY"),
    ("newring box @s", "11"),
    ("setperm 11 3f3f0000", "ok"),
    ("join box", "12"),
    ("print 9", "error 126 ENOKEY"),
    ("join .\0", "error 22 EINVAL"),
    ("join a\0", "error 22 EINVAL"),
    ("context 3", "ok"),
    ("join .\0", "error 3 ESRCH"),
];

/// A client has 64 contexts, whatever makes them.
#[rattlefmt::skip]
const FULL: [(&str, &str); 69] = [
    ("hello 1000 1000", "1"),
    ("thread", "2"), ("fork", "3"), ("thread", "4"), ("fork", "5"), ("thread", "6"), ("fork", "7"), ("thread", "8"),
    ("fork", "9"), ("thread", "10"), ("fork", "11"), ("thread", "12"), ("fork", "13"), ("thread", "14"),
    ("fork", "15"), ("thread", "16"), ("fork", "17"), ("thread", "18"), ("fork", "19"), ("thread", "20"),
    ("fork", "21"), ("thread", "22"), ("fork", "23"), ("thread", "24"), ("fork", "25"), ("thread", "26"),
    ("fork", "27"), ("thread", "28"), ("fork", "29"), ("thread", "30"), ("fork", "31"), ("thread", "32"),
    ("fork", "33"), ("thread", "34"), ("fork", "35"), ("thread", "36"), ("fork", "37"), ("thread", "38"),
    ("fork", "39"), ("thread", "40"), ("fork", "41"), ("thread", "42"), ("fork", "43"), ("thread", "44"),
    ("fork", "45"), ("thread", "46"), ("fork", "47"), ("thread", "48"), ("fork", "49"), ("thread", "50"),
    ("fork", "51"), ("thread", "52"), ("fork", "53"), ("thread", "54"), ("fork", "55"), ("thread", "56"),
    ("fork", "57"), ("thread", "58"), ("fork", "59"), ("thread", "60"), ("fork", "61"), ("thread", "62"),
    ("fork", "63"), ("thread", "64"),
    ("thread", "error 22 EINVAL"),
    ("fork", "error 22 EINVAL"),
    ("hello 1000 1000", "error 22 EINVAL"),
    ("exit", "ok"),
    ("hello 1000 1000", "65"),
];

/// What is revoked or expired is found and refused. A head that grants no SEARCH is not searched.
#[rattlefmt::skip]
const REFUSED: [(&str, &str); 13] = [
    ("hello 1000 1000", "1"),
    ("newring a @u", "5"),
    ("newring b @u", "6"),
    ("timeout 5 9", "ok"),
    ("revoke 6", "ok"),
    ("moment 8", "ok"),
    ("search @u keyring a", "5"),
    ("search @u keyring b", "error 128 EKEYREVOKED"),
    ("moment 9", "ok"),
    ("search @u keyring a", "error 127 EKEYEXPIRED"),
    ("newring c @u", "7"),
    ("setperm 7 37370000", "ok"),
    ("search 7 user k", "error 13 EACCES"),
];

/// A key that its process keyring links is possessed by a process, and not by another.
#[rattlefmt::skip]
const POSSESSED: [(&str, &str); 7] = [
    ("hello 1000 1000", "1"),
    ("id @p create", "5"),
    ("add user k x @p", "6"),
    ("print 6", "x"),
    ("fork", "2"),
    ("context 2", "ok"),
    ("print 6", "error 13 EACCES"),
];

/// The two keyrings of the uid take the last serials. The refusals of an ask still come before ENOSPC.
#[rattlefmt::skip]
const LAST_SERIALS: [(&str, &str); 12] = [
    ("hello 1000 1000", "1"),
    ("add user k x @u", "error 28 ENOSPC"),
    ("join", "error 28 ENOSPC"),
    ("link 99 @t", "error 126 ENOKEY"),
    ("link @u @t", "error 28 ENOSPC"),
    ("link @t @t", "error 35 EDEADLK"),
    ("id @t create", "error 28 ENOSPC"),
    ("id @t", "error 126 ENOKEY"),
    ("search @u user k @t", "error 126 ENOKEY"),
    ("request user k @p", "error 126 ENOKEY"),
    ("print @u", ""),
    ("print @us", ":hex:feffff7f"),
];

/// One serial is left, for one key and not for two.
#[rattlefmt::skip]
const ONE_SERIAL: [(&str, &str); 5] = [
    ("hello 1000 1000", "1"),
    ("add user k x @t", "error 28 ENOSPC"),
    ("id @t", "error 126 ENOKEY"),
    ("id @t create", "2147483647"),
    ("add user k x @t", "error 28 ENOSPC"),
];

/// Each script with the first serial of its store, and its status.
const SCRIPTS: [(u32, &[(&str, &str)], u8); 13] = [
    (3, &PROCESSES, 1),
    (3, &CURRENT, 0),
    (3, &FULL, 1),
    (3, &SESSIONS, 1),
    (3, &BY_WHOM, 1),
    (3, &NEAREST, 0),
    (3, &REFUSED, 1),
    (3, &POSSESSED, 1),
    (3, &DEPTH, 1),
    (3, &DESTINATIONS, 1),
    (3, &COUNTS_AS_MADE, 1),
    (2_147_483_646, &LAST_SERIALS, 1),
    (2_147_483_645, &ONE_SERIAL, 1),
];

/// The scripts that are run again with each allocation refused. They begin on an empty store.
pub(in crate::tests) const GROWING: [&[(&str, &str)]; 5] = [
    &PROCESSES,
    &SESSIONS,
    &DEPTH,
    &DESTINATIONS,
    &COUNTS_AS_MADE,
];

#[test]
fn contexts_and_searches(rt: HostRuntime) -> Result<(), Fail> {
    for (first, rows, status) in &SCRIPTS {
        let store = Store::starting_at(rt.alloc(), (*first).max(3));
        check_rows_on(&rt, rt.alloc(), store, rows, *status)?;
    }
    Ok(())
}
