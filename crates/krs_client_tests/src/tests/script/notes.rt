//! Scripts of queues and watches, a line and what it prints in each row.
use super::{add_line, check_rows, check_script, text_of};
use std::alloc::{AllocError, Global};
use std::test::Fail;

/// A new payload is told of, and so is the end of a watched keyring that another one displaced.
#[rattlefmt::skip]
const UPDATED_AND_DROPPED: [(&str, &str); 11] = [
    ("hello 1000 1000", "1"),
    ("open 8", "1"),
    ("add user alpha a @u", "5"),
    ("watch 5 1 5", "ok"),
    ("add user alpha b @u", "5"),
    ("readq 1 64", "01000001100500000500000000000000"),
    ("newring box @u", "6"),
    ("watch 6 1 7", "ok"),
    ("newring box @u", "7"),
    ("readq 1 64", "00000000100700000600000000000000"),
    ("rlist @u", "5 7"),
];

/// A watch has an id from 0 to 255. It is set once, and ended once, with a removal record.
#[rattlefmt::skip]
const SET_AND_ENDED: [(&str, &str); 18] = [
    ("hello 1000 1000", "1"),
    ("add user k1 x @u", "5"),
    ("add user k2 x @u", "6"),
    ("add user k3 x @u", "7"),
    ("add user k4 x @u", "8"),
    ("add user k5 x @u", "9"),
    ("add user k6 x @u", "10"),
    ("add user k7 x @u", "11"),
    ("open 4", "1"),
    ("watch 11 1 255", "ok"),
    ("update 11 z", "ok"),
    ("readq 1 16", "0100000110ff00000b00000000000000"),
    ("watch 11 1 256", "error 22 EINVAL"),
    ("watch 11 1 6", "error 16 EBUSY"),
    ("watch 11 1 off", "ok"),
    ("readq 1 16", "0000000010ff00000b00000000000000"),
    ("watch 11 1 off", "error 57 EBADSLT"),
    ("closeq 1", "ok"),
];

/// A queue of one record that three notes come to: the first, and a loss for the others. The room is for whole
/// records.
#[rattlefmt::skip]
const FULL: [(&str, &str); 11] = [
    ("hello 1000 1000", "1"),
    ("add user n x @u", "5"),
    ("open 1", "1"),
    ("watch 5 1 0", "ok"),
    ("update 5 a", "ok"),
    ("update 5 b", "ok"),
    ("timeout 5 0", "ok"),
    ("readq 1 8", "error 105 ENOBUFS"),
    ("readq 1 16", "01000001100000000500000000000000"),
    ("readq 1 16", "0000000108000000"),
    ("readq 1 16", "error 11 EAGAIN"),
];

/// The same, with room for the record and the loss.
#[rattlefmt::skip]
const FULL_AT_ONCE: [(&str, &str); 8] = [
    ("hello 1000 1000", "1"),
    ("add user n x @u", "5"),
    ("open 1", "1"),
    ("watch 5 1 0", "ok"),
    ("update 5 a", "ok"),
    ("update 5 b", "ok"),
    ("timeout 5 0", "ok"),
    ("readq 1 24", "010000011000000005000000000000000000000108000000"),
];

/// An invalidated key is told of, and then its removal. Its links give no notes.
#[rattlefmt::skip]
const INVALIDATED: [(&str, &str); 10] = [
    ("hello 1000 1000", "1"),
    ("newring box @u", "5"),
    ("add user k x 5", "6"),
    ("link 6 @u", "ok"),
    ("open 4", "1"),
    ("watch 6 1 1", "ok"),
    ("invalidate 6", "ok"),
    ("readq 1 64", "0100000610010000060000000000000000000000100100000600000000000000"),
    ("rlist 5", ""),
    ("rlist @u", "5"),
];

/// Keys that go at once: their removal records come by rising serial, whatever the filter, and the watches of other
/// keys stay.
#[rattlefmt::skip]
const DROPPED: [(&str, &str); 14] = [
    ("hello 1000 1000", "1"),
    ("newring box @u", "5"),
    ("add user a x 5", "6"),
    ("add user b x 5", "7"),
    ("add user c x @u", "8"),
    ("open 4", "1"),
    ("filter 1 1:0:0:2", "ok"),
    ("watch 7 1 1", "ok"),
    ("watch 8 1 2", "ok"),
    ("watch 6 1 3", "ok"),
    ("clear 5", "ok"),
    ("readq 1 64", "0000000010030000060000000000000000000000100100000700000000000000"),
    ("watch 8 1 off", "ok"),
    ("readq 1 64", "00000000100200000800000000000000"),
];

/// A filter passes updated notes alone, and every removal record. Capacities are from 1 to 4096.
#[rattlefmt::skip]
const FILTERED: [(&str, &str); 15] = [
    ("hello 1000 1000", "1"),
    ("add user f x @u", "5"),
    ("open 4", "1"),
    ("filter 1 1:0:0:2", "ok"),
    ("watch 5 1 9", "ok"),
    ("timeout 5 60", "ok"),
    ("update 5 y", "ok"),
    ("readq 1 64", "01000001100900000500000000000000"),
    ("watch 5 1 off", "ok"),
    ("readq 1 64", "00000000100900000500000000000000"),
    ("filter 1 1:100:0:2", "error 22 EINVAL"),
    ("open 0", "error 22 EINVAL"),
    ("open 513", "2"),
    ("open 4096", "3"),
    ("open 4097", "error 22 EINVAL"),
];

/// The notes of a keyring in their order. A closed queue is no queue.
#[rattlefmt::skip]
const KEYRING: [(&str, &str); 12] = [
    ("hello 1000 1000", "1"),
    ("open 8", "1"),
    ("watch @u 1 3", "ok"),
    ("add user k x @u", "5"),
    ("newring b @u", "6"),
    ("link 5 6", "ok"),
    ("unlink 5 @u", "ok"),
    ("clear @u", "ok"),
    ("readq 1 64", "0100000210030000030000000500000001000002100300000300000006000000\
        0100000310030000030000000500000001000004100300000300000000000000"),
    ("readq 1 64", "error 11 EAGAIN"),
    ("closeq 1", "ok"),
    ("readq 1 64", "error 9 EBADF"),
];

/// The order of refusals. The asks of queues look at no context.
#[rattlefmt::skip]
const REFUSED: [(&str, &str); 19] = [
    ("open 4", "1"),
    ("filter 1 1:0:0:2 0:FFFFff80:ffffff80:00000000", "ok"),
    ("filter 2 1:0:7f:2", "error 9 EBADF"),
    ("filter 1 1:0:7f:2", "error 22 EINVAL"),
    ("filter 1 1:0:0:2 1:0:1:2", "error 22 EINVAL"),
    ("filter 1 0:0:0:0 1:0:0:0 2:0:0:0 3:0:0:0 4:0:0:0 5:0:0:0 6:0:0:0 7:0:0:0 8:0:0:0 9:0:0:0 a:0:0:0 b:0:0:0 \
        c:0:0:0 d:0:0:0 e:0:0:0 f:0:0:0", "ok"),
    ("filter 1 0:0:0:0 1:0:0:0 2:0:0:0 3:0:0:0 4:0:0:0 5:0:0:0 6:0:0:0 7:0:0:0 8:0:0:0 9:0:0:0 a:0:0:0 b:0:0:0 \
        c:0:0:0 d:0:0:0 e:0:0:0 f:0:0:0 10:0:0:0", "error 22 EINVAL"),
    ("readq 1 0", "error 11 EAGAIN"),
    ("readq 0 64", "error 9 EBADF"),
    ("closeq 2", "error 9 EBADF"),
    ("watch 5 1 256", "error 3 ESRCH"),
    ("hello 1000 1000", "1"),
    ("watch 0 2 2147483647", "error 22 EINVAL"),
    ("watch 5 2 1", "error 126 ENOKEY"),
    ("watch @u 2 1", "error 9 EBADF"),
    ("watch @u 1 off", "error 57 EBADSLT"),
    ("leave", "ok"),
    ("readq 1 0", "error 9 EBADF"),
    ("open 4", "2"),
];

/// Each script with its status.
const SCRIPTS: [(&[(&str, &str)], u8); 9] = [
    (&UPDATED_AND_DROPPED, 0),
    (&DROPPED, 0),
    (&SET_AND_ENDED, 1),
    (&FULL, 1),
    (&FULL_AT_ONCE, 0),
    (&INVALIDATED, 0),
    (&FILTERED, 1),
    (&KEYRING, 1),
    (&REFUSED, 1),
];

/// Lines that have not the words that their command takes.
#[rattlefmt::skip]
const FAULTS: [&str; 37] = [
    "open", "open 1 2", "open x", "open -1", "open 4294967296", "Open 1", "opens 1",
    "closeq", "closeq 1 2", "closeq x", "close 1",
    "watch", "watch 5", "watch 5 1", "watch 5 1 2 3", "watch x 1 2", "watch 5 x 2", "watch 5 1 -1",
    "watch 5 1 2147483648", "watch 5 1 Off", "watch 5 1 offs",
    "filter", "filter 1", "filter x 1:0:0:2", "filter 1 1:0:0", "filter 1 1:0:0:2:0", "filter 1 1:0:0:",
    "filter 1 :0:0:2", "filter 1 1:0:0:0x2", "filter 1 1:0:0:000000002", "filter 1 1:0:0:2 3", "filter 1 1;0;0;2",
    "readq", "readq 1", "readq 1 2 3", "readq 1 x", "readq x 1",
];

/// The scripts that are run again with each allocation refused.
pub(in crate::tests) const GROWING: [&[(&str, &str)]; 4] = [
    &UPDATED_AND_DROPPED,
    &INVALIDATED,
    &FILTERED,
    &KEYRING,
];

#[test]
fn keys_are_watched(rt: HostRuntime) -> Result<(), Fail> {
    for (rows, status) in &SCRIPTS {
        check_rows(&rt, rt.alloc(), rows, *status)?;
    }
    Ok(())
}

#[test]
fn words_of_queues(rt: HostRuntime) {
    for line in &FAULTS {
        check_script(&rt, rt.alloc(), line, "usage\n", 2);
    }
}

/// What is asked and printed where 256 queues are open.
#[rattlefmt::skip]
const ALL_OPEN: [(&str, &str); 5] = [
    ("open 1", "error 23 ENFILE"),
    ("open 0", "error 22 EINVAL"),
    ("closeq 7", "ok"),
    ("open 1", "257"),
    ("readq 7 16", "error 9 EBADF"),
];

/// The lines that open 256 queues, and their numbers.
fn add_queues(alloc: Global, input: &mut String, wanted: &mut String) -> Result<(), AllocError> {
    for number in 1..=256_u32 {
        let number = format!(in alloc; "{number}")?;
        add_line(input, "open 1")?;
        add_line(wanted, number.as_str())?;
    }
    Ok(())
}

fn add_text(
    alloc: Global,
    text: &mut String,
    rows: &[(&str, &str)],
    is_printed: bool,
) -> Result<(), AllocError> {
    let more = text_of(alloc, rows, is_printed)?;
    text.push_str(more.as_str())
}

/// 256 queues are open at once. The number of one that was closed isn't given again.
#[test]
fn open_queues(rt: HostRuntime) -> Result<(), Fail> {
    let alloc = rt.alloc();
    let (mut input, mut wanted) = (String::new(alloc), String::new(alloc));
    add_queues(alloc, &mut input, &mut wanted)?;
    add_text(alloc, &mut input, &ALL_OPEN, false)?;
    add_text(alloc, &mut wanted, &ALL_OPEN, true)?;
    check_script(&rt, alloc, input.as_str(), wanted.as_str(), 1);
    Ok(())
}
