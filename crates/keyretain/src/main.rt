//! A client of a key store.
#![tactic(auto)]

mod standard;

use krs_ctl::{SystemSockets, Voice};
use standard::taken;
use std::env;
use std::process::ExitCode;

fn main(rt: HostRuntime) -> ExitCode {
    let held = (taken(&rt), taken(&rt), taken(&rt));
    let status = krs_ctl::run_program(
        &mut SystemSockets::new(&rt),
        rt.alloc(),
        env::args(&rt),
        rt.reader(),
        &mut rt.stdout(),
        &mut Voice::new(rt.stderr()),
    );
    drop(held);
    ExitCode::from(status)
}
