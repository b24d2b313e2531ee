//! The records of watch queues: their bytes, and filters of them.
#![tactic(auto)]

mod codec;
mod filter;
mod laws;
mod subtype;

pub use codec::{RecordBytes, decode, encode};
pub use filter::{Filter, passes};
pub use krs_types::{FilterEntry, KeyEvent, Record};
pub use laws::bytes_tell_records_apart;
