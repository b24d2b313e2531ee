//! Scripts and single calls over a connection whose ends are in memory: keyretain(1), "DESCRIPTION" and
//! "Single calls". The replies are the bytes of the vectors, and what is asked is compared with them.
use super::script::programs::{program_words, status_of};
use krs_commands::Command;
use krs_ctl::run_remote;
use krs_remote::{call_command, run_call};
use krs_types::{Caller, Groups};
use krs_words::{NoCommand, words};
use std::alloc::{AllocError, Global};
use std::io;
use std::io::{ErrorKind, Write};
use std::process::Abort;
use std::test::Fail;

/// Context 1 for 1000 1000, the key 5, its payload, and its description, with the tags 1 to 4.
const CONTEXT: &[u8] = b"\x10\0\0\0\0\0\0\0\x01\0\0\0\0\0\0\0\x01\0\0\0";

const ADDED: &[u8] = b"\x10\0\0\0\0\0\0\0\x02\0\0\0\0\0\0\0\x05\0\0\0";

const PAYLOAD: &[u8] = b"\x0e\0\0\0\0\0\0\0\x03\0\0\0\0\0\0\0s3";

const DESCRIBED: &[u8] = b"\x29\0\0\0\0\0\0\0\x04\0\0\0\0\0\0\0user;1000;1000;3f010000;alpha";

/// The reply to an ask that wants no answer, with tag 1.
const DONE: &[u8] = b"\x0c\0\0\0\0\0\0\0\x01\0\0\0\0\0\0\0";

/// EINVAL with tag 1, and with tag 2 the payload and ENOKEY.
const REFUSED: &[u8] = b"\x0c\0\0\0\x16\0\0\0\x01\0\0\0\0\0\0\0";

const SECOND_PAYLOAD: &[u8] = b"\x0e\0\0\0\0\0\0\0\x02\0\0\0\0\0\0\0s3";

const NO_KEY: &[u8] = b"\x0c\0\0\0\x7e\0\0\0\x02\0\0\0\0\0\0\0";

const ASKS_CONTEXT: &[u8] =
    b"\x1c\0\0\0\x02\0\0\x01\0\0\0\0\x01\0\0\0\0\0\0\0\xe8\x03\0\0\xe8\x03\0\0\0\0\0\0";

#[rattlefmt::skip]
const ASKS_ADD: &[u8] =
    b"\x27\0\0\0\x02\0\x06\x01\x01\0\0\0\x02\0\0\0\0\0\0\0\x04\0user\x05\0alpha\x02\0\0\0s3\xfc\xff\xff\xff";

const ASKS_READ: &[u8] = b"\x14\0\0\0\x02\0\x0b\0\x01\0\0\0\x03\0\0\0\0\0\0\0\x05\0\0\0";

const ASKS_DESCRIBE: &[u8] = b"\x14\0\0\0\x02\0\x06\0\x01\0\0\0\x04\0\0\0\0\0\0\0\x05\0\0\0";

/// EXEC in context 1 with tag 7.
const ASKS_EXEC: &[u8] = b"\x10\0\0\0\x02\0\x03\x01\x01\0\0\0\x07\0\0\0\0\0\0\0";

const ALPHA: &str = "hello 1000 1000\nadd user alpha s3 @u\nprint 5\nrdescribe 5\n";

fn joined(alloc: Global, parts: &[&[u8]]) -> Result<Vec<u8>, AllocError> {
    let mut all = Vec::new(alloc);
    for part in parts {
        all.extend_from_slice(part)?;
    }
    Ok(all)
}

/// The status of a script over a connection with these replies. It promises nothing of what it prints and asks, which a
/// test finds in the texts.
fn ended(
    alloc: Global,
    input: &[u8],
    output: &mut Vec<u8>,
    replies: &[u8],
    asked: &mut Vec<u8>,
) -> u8 {
    run_remote(alloc, input, output, replies, asked)
}

#[test]
fn a_script(rt: HostRuntime) -> Result<(), Fail> {
    let alloc = rt.alloc();
    let replies = joined(alloc, &[CONTEXT, ADDED, PAYLOAD, DESCRIBED])?;
    let asks = joined(alloc, &[ASKS_CONTEXT, ASKS_ADD, ASKS_READ, ASKS_DESCRIBE])?;
    let (mut output, mut asked) = (Vec::new(alloc), Vec::new(alloc));
    let status = ended(alloc, ALPHA.as_bytes(), &mut output, &replies, &mut asked);
    let wanted = b"1\n5\ns3\nuser;1000;1000;3f010000;alpha\n".as_slice();
    assert_eq!(rt; output.as_slice(), wanted);
    assert_eq!(rt; status, 0);
    assert_eq!(rt; asked.as_slice(), asks.as_slice());
    Ok(())
}

/// The seventh ask of a connection has tag 7.
#[test]
fn tags_are_counted(rt: HostRuntime) -> Result<(), Fail> {
    let alloc = rt.alloc();
    let mut replies = Vec::new(alloc);
    for tag in 1..8u8 {
        replies.extend_from_slice(&[12, 0, 0, 0, 0, 0, 0, 0, tag, 0, 0, 0, 0, 0, 0, 0])?;
    }
    let (mut output, mut asked) = (Vec::new(alloc), Vec::new(alloc));
    let lines = b"context 1\nexec\nexec\nexec\nexec\nexec\nexec\nexec\n";
    let status = ended(alloc, lines, &mut output, &replies, &mut asked);
    assert_eq!(rt;
        output.as_slice(),
        b"ok\nok\nok\nok\nok\nok\nok\nok\n".as_slice()
    );
    assert_eq!(rt; status, 0);
    assert_eq!(rt; asked.len(), 140);
    assert!(rt; asked.ends_with(ASKS_EXEC));
    Ok(())
}

/// A script, the bytes of the replies, what is printed, the status, and how many bytes are asked.
#[rattlefmt::skip]
const SCRIPTS: [(&str, &[u8], &str, u8, usize); 27] = [
    // A reply cut short, and none at all.
    ("leave\n", b"\x0c\0\0\0\0\0\0\0\x01\0\0\0\0\0\0", "error: connection\n", 3, 20),
    ("leave\n", b"\x0c\0\0", "error: connection\n", 3, 20),
    ("leave\n", b"", "error: connection\n", 3, 20),
    // A length of 11, one of 262153, a status that no reply has, and bodies that are none.
    ("leave\n", b"\x0b\0\0\0\0\0\0\0\x01\0\0\0\0\0\0\0", "error: connection\n", 3, 20),
    ("leave\n", b"\x09\0\x04\0\0\0\0\0\x01\0\0\0\0\0\0\0", "error: connection\n", 3, 20),
    ("leave\n", b"\x0c\0\0\0\x07\0\0\0\x01\0\0\0\0\0\0\0", "error: connection\n", 3, 20),
    ("leave\n", b"\x0d\0\0\0\0\0\0\0\x01\0\0\0\0\0\0\0\0", "error: connection\n", 3, 20),
    ("leave\n", b"\x0d\0\0\0\x16\0\0\0\x01\0\0\0\0\0\0\0\0", "error: connection\n", 3, 20),
    ("thread\n", b"\x0c\0\0\0\0\0\0\0\x01\0\0\0\0\0\0\0", "error: connection\n", 3, 20),
    // Another tag: 2, 0, one that is 1 in its low half and one in its high half alone, and that of a refusal.
    ("leave\n", b"\x0c\0\0\0\0\0\0\0\x02\0\0\0\0\0\0\0", "error: connection\n", 3, 20),
    ("leave\n", b"\x0c\0\0\0\0\0\0\0\0\0\0\0\0\0\0\0", "error: connection\n", 3, 20),
    ("leave\n", b"\x0c\0\0\0\0\0\0\0\x01\0\0\0\x01\0\0\0", "error: connection\n", 3, 20),
    ("leave\n", b"\x0c\0\0\0\0\0\0\0\0\0\0\0\x01\0\0\0", "error: connection\n", 3, 20),
    ("leave\n", b"\x0c\0\0\0\x16\0\0\0\x02\0\0\0\0\0\0\0", "error: connection\n", 3, 20),
    // The tag of the ask before, of the second and of a hidden DESCRIBE.
    ("leave\nleave\nleave\n", b"\x0c\0\0\0\0\0\0\0\x01\0\0\0\0\0\0\0\x0c\0\0\0\0\0\0\0\x01\0\0\0\0\0\0\0",
        "ok\nerror: connection\n", 3, 40),
    ("rlist 5\n", b"\x10\0\0\0\0\0\0\0\x01\0\0\0\0\0\0\0abcd\x11\0\0\0\0\0\0\0\x01\0\0\0\0\0\0\0user;",
        "error: connection\n", 3, 48),
    // A reply of version 1, whose bytes are too few for a tag, or stand where the tag is.
    ("leave\n", b"\x04\0\0\0\0\0\0\0\x01\0\0\0\0\0\0\0", "error: connection\n", 3, 20),
    ("print 5\n", b"\x0c\0\0\0\0\0\0\0two word", "error: connection\n", 3, 24),
    // What was printed stays, and nothing is asked behind it.
    ("leave\nleave\nleave\n", b"\x0c\0\0\0\0\0\0\0\x01\0\0\0\0\0\0\0\x03\0\0\0", "ok\nerror: connection\n", 3, 40),
    // The server has its own clock.
    ("moment 1\n", b"", "usage\n", 2, 0),
    ("context 7\nnonsense\nleave\n", b"", "ok\nusage\n", 2, 0),
    // An accepted `hello` names the context, a refused one doesn't.
    ("context 9\nhello 4294967295 0\nprint 5\n",
        b"\x0c\0\0\0\x16\0\0\0\x01\0\0\0\0\0\0\0\x0c\0\0\0\x03\0\0\0\x02\0\0\0\0\0\0\0",
        "ok\nerror 22 EINVAL\nerror 3 ESRCH\n", 1, 56),
    // A keyring's links, bytes that are none, and those of a key that may not be described. Each ask has a tag, also
    // the hidden one.
    ("rlist 5\n", b"\x10\0\0\0\0\0\0\0\x01\0\0\0\0\0\0\0\x06\0\0\0\x14\0\0\0\0\0\0\0\x02\0\0\0\0\0\0\0keyring;",
        "6\n", 0, 48),
    ("rlist 5\n", b"\x10\0\0\0\0\0\0\0\x01\0\0\0\0\0\0\0abcd\x11\0\0\0\0\0\0\0\x02\0\0\0\0\0\0\0user;",
        "abcd\n", 0, 48),
    ("rlist 5\n", b"\x10\0\0\0\0\0\0\0\x01\0\0\0\0\0\0\0abcd\x0c\0\0\0\x0d\0\0\0\x02\0\0\0\0\0\0\0", "abcd\n", 0, 48),
    ("rlist 5\n", b"\x10\0\0\0\0\0\0\0\x01\0\0\0\0\0\0\0abcd", "error: connection\n", 3, 48),
    ("rlist 5\nleave\n", b"\x0c\0\0\0\x7e\0\0\0\x01\0\0\0\0\0\0\0\x0c\0\0\0\0\0\0\0\x02\0\0\0\0\0\0\0",
        "error 126 ENOKEY\nok\n", 1, 44),
];

#[test]
fn scripts(rt: HostRuntime) {
    let alloc = rt.alloc();
    for (input, replies, wanted, status, asks) in &SCRIPTS {
        let (mut output, mut asked) = (Vec::new(alloc), Vec::new(alloc));
        let ended = ended(alloc, input.as_bytes(), &mut output, replies, &mut asked);
        assert_eq!(rt; output.as_slice(), wanted.as_bytes(), "at {input:?}");
        assert_eq!(rt; ended, *status, "at {input:?}");
        assert_eq!(rt; asked.len(), *asks, "at {input:?}");
    }
}

/// LEAVE, and an UPDATE of so many bytes.
fn add_long_update(input: &mut Vec<u8>, length: usize) -> Result<(), AllocError> {
    input.extend_from_slice(b"leave\nupdate 5 ")?;
    for _ in 0..length {
        input.push(b'a')?;
    }
    Ok(())
}

/// So many bytes of an UPDATE, what is printed, the status, and how many bytes are asked. A frame has room for 65512
/// beside its head, its tag, the id and their length.
const LONG: [(usize, &str, u8, usize); 3] = [
    (65_512, "ok\nok\n", 0, 20 + 65_540),
    (65_513, "ok\nusage\n", 2, 20),
    (65_530, "ok\nusage\n", 2, 20),
];

/// An ask that fits no frame is usage, and nothing of it is asked.
#[test]
fn too_long(rt: HostRuntime) -> Result<(), Fail> {
    let alloc = rt.alloc();
    let second = b"\x0c\0\0\0\0\0\0\0\x02\0\0\0\0\0\0\0";
    let replies = joined(alloc, &[DONE, second])?;
    for (length, wanted, status, asks) in &LONG {
        let mut input = Vec::new(alloc);
        add_long_update(&mut input, *length)?;
        let (mut output, mut asked) = (Vec::new(alloc), Vec::new(alloc));
        let ended = ended(alloc, &input, &mut output, &replies, &mut asked);
        assert_eq!(rt; output.as_slice(), wanted.as_bytes(), "at {length}");
        assert_eq!(rt; ended, *status, "at {length}");
        assert_eq!(rt; asked.len(), *asks, "at {length}");
    }
    Ok(())
}

/// Takes so many bytes, and then fails.
#[derive(Drop)]
struct Takes {
    left: usize,
}

impl Write for Takes {
    fn write(&mut self, buf: &[u8]) -> io::Result<usize> {
        if self.left == 0 {
            return Err(io::Error::from(ErrorKind::BrokenPipe));
        }
        let taken = buf.len().min(self.left);
        self.left -= taken;
        Ok(taken)
    }

    fn flush(&mut self) -> io::Result<()> {
        Ok(())
    }
}

/// The status of a script whose output takes so many bytes.
fn ended_unprinted(alloc: Global, left: usize, replies: &[u8]) -> u8 {
    let (mut output, mut asked) = (Takes { left }, Vec::new(alloc));
    run_remote(alloc, ALPHA.as_bytes(), &mut output, replies, &mut asked)
}

/// The same of a connection that takes so many.
fn ended_unasked(alloc: Global, left: usize, replies: &[u8], output: &mut Vec<u8>) -> u8 {
    let mut asked = Takes { left };
    run_remote(alloc, ALPHA.as_bytes(), output, replies, &mut asked)
}

/// Printing that fails ends a script without a word, and a connection that takes nothing with one.
#[test]
fn ends_that_fail(rt: HostRuntime) -> Result<(), Fail> {
    let alloc = rt.alloc();
    let replies = joined(alloc, &[CONTEXT, ADDED, PAYLOAD, DESCRIBED])?;
    assert_eq!(rt; ended_unprinted(alloc, 3, &replies), 3);
    for left in &[0, 1, 31, 32, 74] {
        let mut output = Vec::new(alloc);
        let status = ended_unasked(alloc, *left, &replies, &mut output);
        assert!(rt; output.ends_with(b"error: connection\n"), "at {left}");
        assert_eq!(rt; status, 3, "at {left}");
    }
    Ok(())
}

/// A single call for 1000 1000, the replies, what is printed, and the status.
type Call<'a> = (&'a str, &'a [&'a [u8]], &'a str, u8);

#[rattlefmt::skip]
const CALLS: [Call<'static>; 7] = [
    ("add user alpha s3 @u", &[CONTEXT, ADDED], "5\n", 0),
    ("print 5", &[CONTEXT, SECOND_PAYLOAD], "s3\n", 0),
    ("print 5", &[CONTEXT, NO_KEY], "error 126 ENOKEY\n", 1),
    ("print 5", &[REFUSED], "error 22 EINVAL\n", 1),
    ("print 5", &[CONTEXT], "error: connection\n", 3),
    // Other tags than 1 and 2.
    ("print 5", &[CONTEXT, PAYLOAD], "error: connection\n", 3),
    ("print 5", &[NO_KEY], "error: connection\n", 3),
];

fn caller(alloc: Global) -> Caller {
    Caller {
        uid: 1000,
        gid: 1000,
        groups: Groups::new(Vec::new(alloc)),
    }
}

fn command(alloc: Global, line: &str) -> Result<Command, NoCommand> {
    let words = words(alloc, line.as_bytes())?;
    call_command(alloc, words.as_slice())
}

/// The status of a single call, which promises no more than a script.
fn called(
    alloc: Global,
    command: Command,
    output: &mut Vec<u8>,
    replies: &[u8],
    asked: &mut Vec<u8>,
) -> u8 {
    run_call(alloc, caller(alloc), command, output, replies, asked)
}

fn check_call(rt: &impl Abort, alloc: Global, command: Command, replies: &[u8], call: &Call<'_>) {
    let (_, _, wanted, status) = *call;
    let (mut output, mut asked) = (Vec::new(alloc), Vec::new(alloc));
    let ended = called(alloc, command, &mut output, replies, &mut asked);
    assert_eq!(rt; output.as_slice(), wanted.as_bytes(), "at {wanted:?}");
    assert_eq!(rt; ended, status, "at {wanted:?}");
    assert!(rt; asked.starts_with(ASKS_CONTEXT), "at {wanted:?}");
}

#[test]
fn calls(rt: HostRuntime) -> Result<(), Fail> {
    let alloc = rt.alloc();
    for call in &CALLS {
        let (line, replies, _, _) = *call;
        let replies = joined(alloc, replies)?;
        let command = command(alloc, line)?;
        check_call(&rt, alloc, command, &replies, call);
    }
    Ok(())
}

/// The words behind the program's name, and its output and status, where nobody listens.
#[rattlefmt::skip]
const PROGRAMS: [(&[&str], &str, u8); 14] = [
    (&["--socket", "no/such.sock", "script"], "error: connection\n", 3),
    (&["--socket", "no/such.sock", "print", "5"], "error: connection\n", 3),
    (&["--socket", "no/such.sock", "--uid", "1", "--gid", "2", "print", "5"], "error: connection\n", 3),
    // The words are read first.
    (&["--socket", "no/such.sock"], "usage\n", 2),
    (&["--socket", "no/such.sock", "frobnicate"], "usage\n", 2),
    (&["--socket", "no/such.sock", "print"], "usage\n", 2),
    (&["--socket", "no/such.sock", "script", "x"], "usage\n", 2),
    (&["--socket", "no/such.sock", "hello", "1", "1"], "usage\n", 2),
    (&["--socket", "no/such.sock", "context", "1"], "usage\n", 2),
    (&["--socket", "no/such.sock", "moment", "1"], "usage\n", 2),
    // No caller of a script, and no single command without a socket.
    (&["--socket", "no/such.sock", "--uid", "1", "script"], "usage\n", 2),
    (&["--socket", "no/such.sock", "--gid", "1", "script"], "usage\n", 2),
    (&["--uid", "1", "script"], "usage\n", 2),
    (&["--uid", "1", "print", "5"], "usage\n", 2),
];

#[test]
fn programs(rt: HostRuntime) -> Result<(), Fail> {
    let alloc = rt.alloc();
    for (words, wanted, status) in &PROGRAMS {
        let args = program_words(alloc, words)?;
        let (mut output, mut errors) = (Vec::new(alloc), Vec::new(alloc));
        let ended = status_of(&rt, alloc, Ok(args), ALPHA, &mut output, &mut errors);
        assert_eq!(rt; output.as_slice(), wanted.as_bytes(), "at {words:?}");
        assert_eq!(rt; ended, *status, "at {words:?}");
    }
    Ok(())
}

/// A script that stops says on standard error where and why; one that comes to its end says nothing.
#[rattlefmt::skip]
const TOLD: [(&str, &str); 4] = [
    ("context 1\n\nfrobnicate 5\n",
        "keyretain: line 3: no such command: frobnicate\nkeyretain: keyretain --help lists the commands\n"),
    ("# add\nadd user\n", "keyretain: line 2: not as it is used: add TYPE DESC DATA RING\n"),
    ("context 1\n", ""),
    ("print 5\n", ""),
];

#[test]
fn errors_name_lines(rt: HostRuntime) -> Result<(), Fail> {
    let alloc = rt.alloc();
    for (input, told) in &TOLD {
        let args = program_words(alloc, &["script"])?;
        let (mut output, mut errors) = (Vec::new(alloc), Vec::new(alloc));
        let _ = status_of(&rt, alloc, Ok(args), input, &mut output, &mut errors);
        assert_eq!(rt; errors.as_slice(), told.as_bytes(), "at {input:?}");
    }
    Ok(())
}
