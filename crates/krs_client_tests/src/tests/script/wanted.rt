//! What a store does while memory is wanted elsewhere: asks that would keep some are refused with ENOMEM, whatever
//! there is, and no others. docs/FORMAT.md, "ENOSPC and ENOMEM".
use super::{check_rows_on, run, text_of};
use krs_store::{KEEP_NOTHING, Store};
use std::alloc::{AllocError, Global};
use std::process::Abort;
use std::test::Fail;

/// What is there.
const THERE: &str =
    "hello 1000 1000\nadd user alpha s3 @u\nnewring nest @u\nadd user beta b @u\nopen 4\n";

/// Asks that keep memory, and what each prints where there is some.
#[rattlefmt::skip]
const KEEPING: [(&str, &str); 18] = [
    ("context 1", "ok"),
    ("add user gamma g @u", "8"),
    ("add user alpha s4 @u", "5"),
    ("newring other @u", "9"),
    ("update 5 s5", "ok"),
    ("link 5 6", "ok"),
    ("move 7 @u 6", "ok"),
    ("search @u user alpha 6", "5"),
    ("request user alpha 6", "5"),
    ("id @t create", "10"),
    ("open 8", "2"),
    ("watch 5 1 7", "ok"),
    ("join", "11"),
    ("join named", "12"),
    ("thread", "2"),
    ("fork", "3"),
    ("hello 1000 1000", "4"),
    ("hello 1001 1001", "5"),
];

/// Asks that keep none, and those that something else refuses.
#[rattlefmt::skip]
const OTHERS: [(&str, &str); 12] = [
    ("context 1", "ok"),
    ("print 5", "s3"),
    ("rdescribe 5", "user;1000;1000;3f010000;alpha"),
    ("search @u user alpha", "5"),
    ("request user alpha", "5"),
    ("setperm 5 3f010000", "ok"),
    ("timeout 5 0", "ok"),
    ("readq 1 64", "error 11 EAGAIN"),
    ("update 99 x", "error 126 ENOKEY"),
    ("link 99 6", "error 126 ENOKEY"),
    ("watch 99 1 7", "error 126 ENOKEY"),
    ("open 0", "error 22 EINVAL"),
];

/// The same asks, each refused for memory.
fn add_refused<'a>(
    rows: &mut Vec<(&'a str, &'a str)>,
    asks: &[(&'a str, &'a str)],
) -> Result<(), AllocError> {
    for (line, printed) in asks {
        let is_ask = *printed != "ok" || !line.starts_with("context");
        rows.push((*line, if is_ask { "error 12 ENOMEM" } else { printed }))?;
    }
    Ok(())
}

/// A store that has these keys and a queue.
fn store_with(alloc: Global) -> Store {
    let mut output = Vec::new(alloc);
    let end = run(alloc, THERE.as_bytes(), &mut output, Store::new(alloc));
    end.store
}

/// A script of these rows, on such a store of which so many bytes are wanted, and what comes back.
fn check_wanted(
    rt: &impl Abort,
    alloc: Global,
    store: Store,
    wanted: u64,
    rows: &[(&str, &str)],
) -> Result<Store, AllocError> {
    store.mind_memory(wanted);
    let input = text_of(alloc, rows, false)?;
    let printed = text_of(alloc, rows, true)?;
    let mut output = Vec::new(alloc);
    let end = run(alloc, input.as_bytes(), &mut output, store);
    assert_eq!(rt;
        output.as_slice(),
        printed.as_bytes(),
        "with {wanted} bytes wanted"
    );
    Ok(end.store)
}

#[test]
fn nothing_is_kept_while_all_memory_is_wanted(rt: HostRuntime) -> Result<(), Fail> {
    let alloc = rt.alloc();
    let mut refused = Vec::new(alloc);
    add_refused(&mut refused, &KEEPING)?;
    let store = store_with(alloc);
    let store = check_wanted(&rt, alloc, store, KEEP_NOTHING, refused.as_slice())?;
    let store = check_wanted(&rt, alloc, store, KEEP_NOTHING, &OTHERS)?;
    store.mind_memory(0);
    check_rows_on(&rt, alloc, store, &KEEPING, 0)?;
    Ok(())
}
