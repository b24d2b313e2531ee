use krs_store::Store;
use krs_store_asks::{Want, is_wanted};
use krs_types::{Ask, Reply};
use std::process::Abort;

mod clients;
mod filters;
mod full;
mod hints;
mod nested;
mod records;
mod values;
mod world;

/// Makes an ask, behind a call that promises nothing: a test knows nothing of a store but what it answers.
fn reply(store: &mut Store, client: u32, moment: u64, ask: Ask) -> Reply {
    store.apply(client, moment, ask)
}

/// Stops the test where a reply is not the one that is wanted, and names the row.
fn expect(rt: &impl Abort, reply: Reply, want: Want<'_>, row: &str) {
    assert!(rt; is_wanted(&reply, want), "{row}: {want:?}");
}
