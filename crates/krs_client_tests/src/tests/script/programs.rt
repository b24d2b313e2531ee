//! The program over ends in memory: what its words make it print, and ends and words that fail.
use super::{ALPHA, FailsOnce};
use krs_ctl::{SystemSockets, Voice, run_program};
use std::alloc::{AllocError, Global};
use std::cell::Cell;
use std::env::Args;
use std::io;
use std::io::ErrorKind;
use std::net::Net;
use std::process::Abort;
use std::test::Fail;

/// The words behind the program's name, its input and status, how its output begins, and whether it writes to
/// standard error.
type Program<'a> = (&'a [&'a str], &'a str, u8, &'a str, bool);

#[rattlefmt::skip]
const PROGRAMS: [Program<'static>; 11] = [
    (&["script"], ALPHA, 0, "1\n5\ns3\n", false),
    (&["--", "script"], ALPHA, 0, "1\n5\ns3\n", false),
    (&["script"], "context 1\nprint 5\n", 1, "ok\nerror 3 ESRCH\n", false),
    (&["script"], "context 1\nnonsense\n", 2, "ok\nusage\n", true),
    (&[], ALPHA, 2, "usage\n", true),
    (&["scrip"], ALPHA, 2, "usage\n", true),
    (&["script", "x"], ALPHA, 2, "usage\n", true),
    (&["print", "5"], ALPHA, 2, "usage\n", true),
    (&["--version"], ALPHA, 0, "keyretain 0.1.0\n", false),
    (&["--help"], ALPHA, 0, "A client of a key store", false),
    (&["--nonsense"], ALPHA, 2, "", true),
];

fn add_word(alloc: Global, words: &mut Vec<String>, word: &str) -> Result<(), AllocError> {
    let word = String::from_str(alloc, word)?;
    words.push(word).map_err(AllocError::from)
}

/// The program's name, and these words behind it.
pub(in crate::tests) fn program_words(alloc: Global, words: &[&str]) -> Result<Args, AllocError> {
    let mut all = Vec::new(alloc);
    add_word(alloc, &mut all, "keyretain")?;
    for word in words {
        add_word(alloc, &mut all, word)?;
    }
    Ok(all.into_iter())
}

/// The status of the program. It promises nothing of what it writes, which a test finds in the texts.
pub(in crate::tests) fn status_of<N: Net>(
    net: &N,
    alloc: Global,
    words: io::Result<Args>,
    input: &str,
    output: &mut Vec<u8>,
    errors: &mut Vec<u8>,
) -> u8 {
    let (mut net, mut errors) = (SystemSockets::new(net), Voice::new(errors));
    let input = input.as_bytes();
    run_program(&mut net, alloc, words, input, output, &mut errors)
}

fn check_program<N: Abort + Net>(rt: &N, alloc: Global, args: Args, program: &Program<'_>) {
    let (words, input, status, begins, has_errors) = *program;
    let (mut output, mut errors) = (Vec::new(alloc), Vec::new(alloc));
    let ended = status_of(rt, alloc, Ok(args), input, &mut output, &mut errors);
    assert_eq!(rt; ended, status, "at {words:?}");
    assert!(rt; output.starts_with(begins.as_bytes()), "at {words:?}");
    assert_eq!(rt; output.is_empty(), begins.is_empty(), "at {words:?}");
    assert_eq!(rt; errors.is_empty(), !has_errors, "at {words:?}");
}

#[test]
fn programs(rt: HostRuntime) -> Result<(), Fail> {
    for program in &PROGRAMS {
        let args = program_words(rt.alloc(), program.0)?;
        check_program(&rt, rt.alloc(), args, program);
    }
    Ok(())
}

/// Words of a program whose output fails, and its status.
#[rattlefmt::skip]
const UNPRINTED: [(&[&str], u8); 5] = [
    (&["script"], 3), (&["scrip"], 3), (&["--version"], 3), (&["--help"], 3),
    // What is refused goes to standard error.
    (&["--nonsense"], 2),
];

/// The status of such a program, and how many lines its output and its errors took.
fn ended_unprinted<N: Net>(net: &N, alloc: Global, words: Args) -> (u8, usize, usize) {
    let (out, told) = (Cell::new(0), Cell::new(0));
    let mut output = FailsOnce::after(0, &out);
    let mut errors = Voice::new(FailsOnce::after(0, &told));
    let (mut net, input) = (SystemSockets::new(net), ALPHA.as_bytes());
    let status = run_program(&mut net, alloc, Ok(words), input, &mut output, &mut errors);
    (status, output.taken, errors.writer().taken)
}

#[test]
fn programs_that_cannot_print(rt: HostRuntime) -> Result<(), Fail> {
    let alloc = rt.alloc();
    for (words, status) in &UNPRINTED {
        let args = program_words(alloc, words)?;
        let ended = ended_unprinted(&rt, alloc, args);
        assert_eq!(rt; ended, (*status, 0, 0), "at {words:?}");
    }
    Ok(())
}

/// Words that cannot be had: no text, or no memory for them.
fn check_unread<N: Abort + Net>(rt: &N, alloc: Global, kind: ErrorKind, wanted: &str, status: u8) {
    let words = Err(io::Error::from(kind));
    let (mut output, mut errors) = (Vec::new(alloc), Vec::new(alloc));
    let ended = status_of(rt, alloc, words, ALPHA, &mut output, &mut errors);
    assert_eq!(rt; output.as_slice(), wanted.as_bytes());
    assert_eq!(rt; ended, status);
}

#[test]
fn words_that_fail(rt: HostRuntime) {
    let alloc = rt.alloc();
    check_unread(&rt, alloc, ErrorKind::InvalidData, "usage\n", 2);
    check_unread(&rt, alloc, ErrorKind::OutOfMemory, "error 12 ENOMEM\n", 1);
}
