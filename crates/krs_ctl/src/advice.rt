//! What to do after the refusal of a single call.

use krs_commands::Command;
use krs_types::{Caller, Kind, Op, TypeName};

const PAYLOADS: &str = "keyretain: a payload has 1 to 32767 bytes\n";

const TYPES: &str = "keyretain: the types are user, logon and keyring\n";

const LOGON: &str = "keyretain: the description of a logon key is PREFIX:NAME\n";

const QUEUES: &str =
    "keyretain: a queue ends with its connection: open it and use it in one script\n";

const AS_ROOT: &str = "keyretain: it was asked as uid 0; --uid and --gid name another caller, \
     and keyretain-guard takes one's own alone\n";

/// What is told of a call that was refused.
pub(crate) fn of_refused(caller: &Caller, command: &Command) -> &'static str {
    let told = match command {
        Command::Ask(op) => of_refused_ask(op),
        Command::Readq { .. } => QUEUES,
        _ => "",
    };
    if told.is_empty() && caller.uid == 0 {
        return AS_ROOT;
    }
    told
}

fn of_refused_ask(op: &Op) -> &'static str {
    match op {
        Op::Add {
            type_name,
            desc,
            payload,
            ..
        } => of_refused_add(type_name, desc.as_slice(), payload.as_slice()),
        Op::Update { payload, .. } => of_payload(payload.as_slice()),
        Op::Watch { .. } | Op::SetFilter { .. } | Op::CloseQueue { .. } => QUEUES,
        _ => "",
    }
}

fn of_refused_add(type_name: &TypeName, desc: &[u8], payload: &[u8]) -> &'static str {
    match type_name.kind() {
        Err(_) => TYPES,
        Ok(kind) if kind.is(Kind::Keyring) => "",
        Ok(kind) if kind.is(Kind::Logon) && !desc.contains(&b':') => LOGON,
        Ok(_) => of_payload(payload),
    }
}

fn of_payload(payload: &[u8]) -> &'static str {
    match payload.len() {
        1..=32_767 => "",
        _ => PAYLOADS,
    }
}
