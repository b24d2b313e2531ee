//! Scripts over ends in memory: worked examples of every ask, and ends that fail.
use krs_ctl::{ScriptEnd, run_script};
use krs_store::Store;
use std::alloc::{AllocError, Global};
use std::cell::Cell;
use std::io;
use std::io::{ErrorKind, Read, Write};
use std::process::Abort;
use std::test::Fail;

pub(in crate::tests) mod changes;
pub(in crate::tests) mod contexts;
pub(in crate::tests) mod holders;
pub(in crate::tests) mod keyrings;
pub(in crate::tests) mod moves;
pub(in crate::tests) mod notes;
pub(in crate::tests) mod programs;
mod users;
mod wanted;

const ALPHA: &str = "hello 1000 1000\nadd user alpha s3 @u\nprint 5\nrdescribe 5\n";

/// A script, what it prints, and its status.
#[rattlefmt::skip]
const SCRIPTS: [(&str, &str, u8); 12] = [
    (ALPHA, "1\n5\ns3\nuser;1000;1000;3f010000;alpha\n", 0),
    ("", "", 0),
    // The last line needs no newline.
    ("context 7", "ok\n", 0),
    ("\n   \n# print 5\n#\n  context  7  \n", "ok\n", 0),
    // A comment begins in the very first byte.
    (" # print 5\n", "usage\n", 2),
    ("moment 18446744073709551615\ncontext 4294967295\nleave\n", "ok\nok\nok\n", 0),
    ("print 5\n", "error 3 ESRCH\n", 1),
    ("hello 1000 1000\nprint 5\nleave\n", "1\nerror 126 ENOKEY\nok\n", 1),
    ("hello 1000 1000\nadd user a hex: @u\n", "1\nerror 22 EINVAL\n", 1),
    ("hello 1000 1000 00100 7\nadd user a hex:00fF7f @u\nprint 00005\n", "1\n5\n:hex:00ff7f\n", 0),
    ("hello 1000 1000\nadd user a hex:207e @u\nprint 5\n", "1\n5\n ~\n", 0),
    // Usage is the status whatever was refused before it, and nothing is done after it.
    ("print 5\nnonsense\ncontext 1\n", "error 3 ESRCH\nusage\n", 2),
];

/// Lines that are no command, or not the words that it takes.
#[rattlefmt::skip]
const FAULTS: [&str; 119] = [
    "prin 5", "printx 5", "Print 5", "print", "print 5 6", "print x", "print 5x", "print -1", "print +5", "print 0x5",
    "print 2147483648", "print @x", "print @", "print @us5", "print 5\r", "print\t5",
    "hello", "hello 1000", "hello 1000 x", "hello 4294967296 0", "hello 0 0 1 -2",
    "context", "context 1 2", "context 4294967296", "context @u",
    "moment", "moment 18446744073709551616", "moment 1 2", "moment 1.0",
    "add user a x", "add user a x @u 5", "add user a hex:0 @u", "add user a hex:0g @u", "add user a x @v",
    "leave 1", "rdescribe",
    "update", "update 5", "update 5 x y", "update @x y", "update 5 hex:0", "Update 5 x",
    "revoke", "revoke 5 6", "revoke x",
    "chown", "chown 5", "chown 5 1 2", "chown 5 -1", "chown 5 4294967296", "chown @x 1", "chown 5 0x1",
    "chgrp", "chgrp 5", "chgrp 5 1 2", "chgrp 5 x", "chgrp 5 4294967296",
    "setperm", "setperm 5", "setperm 5 1 2", "setperm 5 3f0100010", "setperm 5 000000001", "setperm 5 0x1",
    "setperm 5 +1", "setperm 5 -1", "setperm 5 3g",
    "timeout", "timeout 5", "timeout 5 1 2", "timeout 5 4294967296", "timeout 5 a",
    "newring", "newring a", "newring a @u 5", "newring a x", "rlist", "rlist 5 6", "rlist x", "rlist -4",
    "clear", "clear 5 6", "clear x", "Clear 5",
    "link", "link 5", "link 5 6 7", "link 5 x", "unlink", "unlink 5", "unlink x 5", "unlink 5 6 7",
    "thread 1", "Thread", "fork 1", "exec 1", "id", "id x", "id 5 Create", "id 5 creat", "id 5 creates",
    "id 5 create 1", "id create 5", "join a b", "search", "search 5", "search 5 user", "search x user k",
    "search 5 user k x", "search 5 user k 6 7", "request", "request user", "request user k x",
    "request user k 6 7", "exit 1", "Exit", "invalidate", "invalidate 5 6", "invalidate x", "Invalidate 5",
];

/// Runs a script, behind a call that promises nothing: a test knows nothing of one but what it prints and how it ends.
fn run(alloc: Global, input: &[u8], output: &mut Vec<u8>, store: Store) -> ScriptEnd {
    run_script(alloc, input, output, store)
}

/// A script on a store prints this, and has this status.
fn check_on(rt: &impl Abort, alloc: Global, store: Store, input: &str, wanted: &str, status: u8) {
    let mut output = Vec::new(alloc);
    let end = run(alloc, input.as_bytes(), &mut output, store);
    assert_eq!(rt; output.as_slice(), wanted.as_bytes(), "at {input:?}");
    assert_eq!(rt; end.status, status, "at {input:?}");
}

/// So does a script on an empty store.
fn check_script(rt: &impl Abort, alloc: Global, input: &str, wanted: &str, status: u8) {
    check_on(rt, alloc, Store::new(alloc), input, wanted, status);
}

fn add_line(text: &mut String, line: &str) -> Result<(), AllocError> {
    text.push_str(line)?;
    text.push('\n')?;
    Ok(())
}

/// The lines of a script, or what they print, each with its newline.
fn text_of(alloc: Global, rows: &[(&str, &str)], is_printed: bool) -> Result<String, AllocError> {
    let mut text = String::new(alloc);
    for (line, printed) in rows {
        add_line(&mut text, if is_printed { printed } else { line })?;
    }
    Ok(text)
}

/// A script on a store by its lines, and what each prints.
fn check_rows_on(
    rt: &impl Abort,
    alloc: Global,
    store: Store,
    rows: &[(&str, &str)],
    status: u8,
) -> Result<(), AllocError> {
    let input = text_of(alloc, rows, false)?;
    let wanted = text_of(alloc, rows, true)?;
    check_on(rt, alloc, store, input.as_str(), wanted.as_str(), status);
    Ok(())
}

/// The same on an empty store.
fn check_rows(
    rt: &impl Abort,
    alloc: Global,
    rows: &[(&str, &str)],
    status: u8,
) -> Result<(), AllocError> {
    check_rows_on(rt, alloc, Store::new(alloc), rows, status)
}

#[test]
fn scripts(rt: HostRuntime) {
    for (input, wanted, status) in &SCRIPTS {
        check_script(&rt, rt.alloc(), input, wanted, *status);
    }
}

#[test]
fn faults(rt: HostRuntime) {
    for line in &FAULTS {
        check_script(&rt, rt.alloc(), line, "usage\n", 2);
    }
}

/// Bytes that are no text, and lines longer than any buffer.
fn add_any_bytes(input: &mut Vec<u8>) -> Result<(), AllocError> {
    input.extend_from_slice(b"hello 1000 1000\nadd user \xff\x80 ")?;
    for _ in 0..200_000 {
        input.push(b'a')?;
    }
    input.extend_from_slice(b" @u\nadd user \xff\x80 \xfe @u\nrdescribe 5\nprint 5\n#")?;
    for _ in 0..200_000 {
        input.push(0)?;
    }
    Ok(())
}

#[test]
fn any_bytes(rt: HostRuntime) -> Result<(), Fail> {
    let (mut input, mut output) = (Vec::new(rt.alloc()), Vec::new(rt.alloc()));
    add_any_bytes(&mut input)?;
    let end = run(rt.alloc(), &input, &mut output, Store::new(rt.alloc()));
    let wanted =
        "1\nerror 22 EINVAL\n5\n:hex:757365723b313030303b313030303b33663031303030303bff80\n:hex:fe\n";
    assert_eq!(rt; output.as_slice(), wanted.as_bytes());
    assert_eq!(rt; end.status, 1);
    Ok(())
}

#[test]
fn store_comes_back(rt: HostRuntime) {
    let alloc = rt.alloc();
    let mut output = Vec::new(alloc);
    let first = run(alloc, ALPHA.as_bytes(), &mut output, Store::new(alloc));
    let again = "context 1\nprint 5\n";
    check_on(&rt, alloc, first.store, again, "ok\ns3\n", 0);
}

/// Gives a line at a time, and fails where the answers to those before it are not out, or at line `fails_at`.
#[derive(Drop)]
struct LineByLine<'a> {
    lines: &'a [&'a str],
    out: &'a Cell<usize>,
    given: usize,
    fails_at: usize,
}

impl Read for LineByLine<'_> {
    fn read(&mut self, buf: &mut [u8]) -> io::Result<usize> {
        if self.given == self.fails_at || self.out.get() != self.given {
            return Err(io::Error::from(ErrorKind::Other));
        }
        let Some(line) = self.lines.get(self.given) else {
            return Ok(0);
        };
        self.given = self.given.saturating_add(1);
        let bytes = line.as_bytes();
        if bytes.len() > buf.len() {
            return Err(io::Error::from(ErrorKind::Other));
        }
        buf[..bytes.len()].copy_from_slice(bytes);
        Ok(bytes.len())
    }
}

/// Takes lines, which are out once it is flushed. It fails at one write, the one after `most` lines, whose lines are
/// lost, and takes all that come after it.
#[derive(Drop)]
struct FailsOnce<'a> {
    out: &'a Cell<usize>,
    taken: usize,
    waiting: usize,
    most: usize,
    has_failed: bool,
}

impl FailsOnce<'_> {
    fn after<'a>(most: usize, out: &'a Cell<usize>) -> FailsOnce<'a> {
        FailsOnce {
            out,
            taken: 0,
            waiting: 0,
            most,
            has_failed: false,
        }
    }
}

impl Write for FailsOnce<'_> {
    fn write(&mut self, buf: &[u8]) -> io::Result<usize> {
        let lines = buf.iter().filter(|byte| **byte == b'\n').count();
        if self.taken >= self.most && !self.has_failed {
            self.has_failed = true;
            self.out.set(self.out.get().saturating_add(lines));
            return Err(io::Error::from(ErrorKind::BrokenPipe));
        }
        self.taken = self.taken.saturating_add(lines);
        self.waiting = self.waiting.saturating_add(lines);
        Ok(buf.len())
    }

    fn flush(&mut self) -> io::Result<()> {
        self.out.set(self.out.get().saturating_add(self.waiting));
        self.waiting = 0;
        Ok(())
    }
}

/// At which line reading fails, after how many lines a write does, and then the status and the lines written.
#[rattlefmt::skip]
const ENDS: [(usize, usize, u8, usize); 8] = [
    (9, 9, 0, 4),
    (0, 9, 3, 0), (1, 9, 3, 1), (4, 9, 3, 4),
    (9, 0, 3, 0), (9, 1, 3, 1), (9, 3, 3, 3), (9, 4, 0, 4),
];

/// The status of a script over ends that fail.
fn ended_at(alloc: Global, reader: LineByLine<'_>, writer: &mut FailsOnce<'_>) -> u8 {
    let end = run_script(alloc, reader, writer, Store::new(alloc));
    end.status
}

#[test]
fn a_line_at_a_time(rt: HostRuntime) {
    let lines = [
        "hello 1000 1000\n",
        "add user alpha s3 @u\n",
        "print 5\n",
        "rdescribe 5\n",
    ];
    for (reads, writes, status, count) in &ENDS {
        let out = Cell::new(0);
        let reader = LineByLine {
            lines: lines.as_slice(),
            out: &out,
            given: 0,
            fails_at: *reads,
        };
        let mut writer = FailsOnce::after(*writes, &out);
        let ended = ended_at(rt.alloc(), reader, &mut writer);
        assert_eq!(rt; ended, *status, "reads to {reads}, writes to {writes}");
        assert_eq!(rt;
            writer.taken,
            *count,
            "reads to {reads}, writes to {writes}"
        );
    }
}

/// Newlines without an end, behind a first line, and how many bytes of them were read.
#[derive(Drop)]
struct Endless<'a> {
    given: &'a Cell<usize>,
}

impl Read for Endless<'_> {
    fn read(&mut self, buf: &mut [u8]) -> io::Result<usize> {
        buf.fill(b'\n');
        if self.given.get() == 0 && buf.len() > 9 {
            buf[..9].copy_from_slice(b"context 1");
        }
        self.given.set(self.given.get().saturating_add(buf.len()));
        Ok(buf.len())
    }
}

/// The status of a script that reads so.
fn ended_late(alloc: Global, reader: Endless<'_>, output: &mut Vec<u8>) -> u8 {
    let end = run_script(alloc, reader, output, Store::new(alloc));
    end.status
}

/// All lines that a script has at most are read, and no more than a buffer behind them.
#[test]
fn ends_after_many_lines(rt: HostRuntime) {
    let mut output = Vec::new(rt.alloc());
    let given = Cell::new(0);
    let reader = Endless { given: &given };
    assert_eq!(rt; ended_late(rt.alloc(), reader, &mut output), 3);
    assert_eq!(rt; output.as_slice(), b"ok\n".as_slice());
    let all_lines = 16_777_216 + "context 1".len();
    assert!(rt;
        (all_lines..all_lines + 65_536).contains(&given.get()),
        "{} bytes",
        given.get()
    );
}
