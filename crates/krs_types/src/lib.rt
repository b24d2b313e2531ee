//! The values of a key store: serials, rights, masks, types of keys, errors, callers, asks and replies, and note
//! records. A contract sees each text, payload or description as its list of bytes, a serial and a mask as a number.
#![tactic(auto)]

mod ask;
mod blob;
mod body;
mod caller;
mod context;
mod depth;
mod errno;
mod event;
mod fault;
mod key_id;
mod kind;
mod name;
mod note;
mod perm;
mod rights;
mod shape;
mod type_name;
mod wiping;

pub use ask::{Answer, Ask, MOVE_EXCL, Op, Reply, is_same_reply};
pub use blob::Blob;
pub use body::Body;
pub use caller::{Caller, Groups, UNCHANGED};
pub use context::{Context, UidRings};
pub use depth::{NESTING_DEPTH, SEARCH_DEPTH};
pub use errno::Errno;
pub use event::Event;
pub use fault::Fault;
pub use key_id::{KeyId, Serial};
pub use kind::{Kind, Told, check_description};
pub use name::{Desc, Name};
pub use note::{FilterEntries, FilterEntry, KeyEvent, Record};
pub use perm::Perm;
pub use rights::{Rights, Want};
pub use shape::Shape;
pub use type_name::TypeName;
pub use wiping::{move_wiped, wipe};
