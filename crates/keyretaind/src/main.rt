//! The daemon of a key store.
#![tactic(auto)]

use krs_serve::{SystemPaths, Voice, Voices};
use std::process::ExitCode;

fn main(rt: HostRuntime) -> ExitCode {
    let mut voices = Voices {
        output: Voice::new(rt.stdout()),
        errors: Voice::new(rt.stderr()),
    };
    let paths = SystemPaths::new(&rt);
    ExitCode::from(krs_serve::run_daemon(&rt, paths, rt.alloc(), &mut voices))
}
